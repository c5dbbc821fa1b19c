//! An app as a side of a comparison by rows.

ghost use Rattle.std.specs.Prelude.{◌≡◌, List, [], true, IfSome, option_copied};
ghost use Rattle.diff_manifests.specs.Apps.{contents_in};
ghost use Rattle.diff_manifests.specs.Sides as specs;
ghost use Rattle.releases.specs.Release as release;
ghost use Rattle.diff_space.specs.Scopes.{side_of};

use cells::Shape;
use diff_space::RuleSide;
use load::JudgedApp;
use rule_lang::{Rule, Statement};

// A side of these parts, which have one lifetime.
fn rule_side<'a>(shape: &'a Shape, statements: &'a [Statement], contents: &'a [u8]) -> RuleSide<'a>
    ensures { side_of result ≡ record {
      shape = shape.now;
      statements = statements.now;
      contents = contents.now;
    } }
{
    RuleSide {
        shape,
        statements,
        contents,
    }
}

// The side of an app with this rule, if it fits the shape.
fn side_with<'a>(shape: &'a Shape, rule: &'a Rule, contents: &'a [u8]) -> Option<RuleSide<'a>>
    ensures { IfSome result (λ side.
        specs.IsSideWith shape.now rule.now contents.now (side_of side)) }
{
    shape.invariant_law();
    if rule.fits(shape) {
        Some(rule_side(shape, rule.statements(), contents))
    } else {
        None
    }
}

/// The side of an app. A manifest that lacks the app has a side with a plain shape and no
/// statements, and an app with a program has none.
#[tactic(auto, using(crate::proofs::RowSides::side_of_app, crate::proofs::RowSides::side_of_none))]
pub(crate) fn side_in<'a>(
    plain: &'a Shape,
    app: Option<&'a JudgedApp>,
    contents: &'a [u8],
) -> Option<RuleSide<'a>>
    requires releases { plain.now.releases ≡ 0 }
    requires arrays { plain.now.arrays ≡ [] }
    ensures { IfSome result (λ side. (releases : List release.Release)
        → contents.now ≡ contents_in releases (option_copied app.entry)
        → specs.IsSideBy releases (option_copied app.entry) (side_of side)) }
{
    match app {
        None => {
            plain.invariant_law();
            Some(rule_side(plain, &[], contents))
        }
        Some(app) => match &app.rule {
            Some(rule) => side_with(app.program.shape(), rule, contents),
            None => None,
        },
    }
}
