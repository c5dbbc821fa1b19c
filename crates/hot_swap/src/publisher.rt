//! The publisher: it installs rulesets one after another, makes watchers, and gives them notices.

ghost use Rattle.std.specs.Prelude.{◌≡◌, ◌≢◌, ◌↔◌, ◌+◌, ◌-◌, ◌^◌, ◌≤◌, [], ◌∷◌};
ghost use Rattle.std.specs.Prelude.{Err, IfOk, IfErr, All};
ghost use Rattle.std.specs.Arc.{arc_value};

use crate::known_prefix::{Generation, KnownPrefix};
use crate::list_end::ListEnd;
use crate::next::NextInstall;
use crate::notice::Notice;
use crate::seats::{Shared, Taken};
use crate::showing::{PublishedWriter, nothing_shown, show};
use crate::swap_fault::SwapFault;
use crate::watcher::Watcher;
use core::mem::replace_with;
use ruleset::Ruleset;
use std::alloc::Global;
use std::marker::Model;
use std::sync::{Arc, Wait};

/// Installs rulesets, and makes watchers. It is ended by `close`, and must live as long as its
/// watchers are used.
pub struct Publisher {
    writer: PublishedWriter,
    end: Arc<ListEnd>,
    known: KnownPrefix,
    latest: Arc<Ruleset>,
    places: usize,
}

impl Model for Publisher {
    ghost use Rattle.std.specs.Prelude.{length};
    ghost use Rattle.std.specs.Arc.{arc_value};
    ghost use Rattle.left_right.specs.Sides.{view as sides_view};
    ghost use Rattle.hot_swap.specs.Latest.{IsPublisher, Publishing};

    ghost Value = { Publishing };

    ghost view = { λ p. record {
      known = p.known;
      latest = record { generation = length p.known.rulesets; rules = arc_value p.latest };
      places = p.places;
    } };

    ghost invariant = { λ p. IsPublisher p.known (arc_value p.latest)
        (sides_view p.writer.desk.place)
        p.writer.desk.shown.value.known.publisher (arc_value p.end).word.book };
}

impl Publisher {
    ghost use Rattle.ruleset.specs.Rules.{IsRuleset};
    ghost use Rattle.hot_swap.specs.Published.{IsLatest};
    ghost use Rattle.hot_swap.specs.Latest.{Installs, latest};

    /// Installs the first ruleset, of generation 1, with places for 1 to 65 watchers. Returns H1 if
    /// an allocation fails. It never waits, since no watcher exists yet.
    // open: whether an allocation fails (H1).
    pub fn new<R: Wait>(
        rt: &R,
        alloc: Global,
        first: Arc<Ruleset>,
        watchers: usize,
    ) -> Result<Publisher, SwapFault>
        requires some { 1 ≤ watchers }
        requires few { watchers ≤ 65 }
        ensures first { IfOk result (λ p. p.latest ≡ latest 1 (arc_value first)) }
        ensures listed { IfOk result (λ p. p.known.rulesets ≡ arc_value first ∷ []) }
        ensures places { IfOk result (λ p. p.places ≡ watchers) }
        ensures memory { IfErr result (λ e. e ≡ SwapFault.Memory) }
    {
        first.invariant_law();
        let (known, end) = KnownPrefix::open();
        let Ok(end) = Arc::new(alloc, end) else {
            return Err(SwapFault::Memory);
        };
        let Ok(next) = NextInstall::new(&end, &known, &first) else {
            return Err(SwapFault::Memory);
        };
        let Ok(writer) = nothing_shown(alloc, &first, &known, watchers) else {
            return Err(SwapFault::Memory);
        };
        let (writer, grown) = show(writer, next, rt);
        match grown {
            Some(known) => Ok(Publisher {
                writer,
                end,
                known,
                latest: first,
                places: watchers,
            }),
            None => {
                writer.take(rt);
                Err(SwapFault::Memory)
            }
        }
    }

    /// Law: the type's invariant.
    pub fn invariant_law(&self)
        ensures last { IsLatest self.now.known self.now.latest.generation self.now.latest.rules }
        // In each ruleset of the list an appid has one app, and a run of its program ends well.
        ensures sound { All IsRuleset self.now.known.rulesets }
    {
        let _places = self.places;
    }

    /// The generation that was installed last.
    pub fn generation(&self) -> Generation
        ensures { result ≡ self.now.latest.generation }
    {
        self.known.generation()
    }

    /// The ruleset that was installed last.
    pub fn ruleset(&self) -> &Ruleset
        ensures { result.now ≡ self.now.latest.rules }
    {
        &self.latest
    }

    /// Installs a ruleset, and returns its generation, which is one above the last. It may wait for
    /// watchers that still read the ruleset before the last. Returns H3 after generation 2^64 - 1,
    /// and H1 if an allocation fails; then the old ruleset stays.
    // open: whether an allocation fails (H1). That watchers without a notice get the ruleset:
    // tests.
    pub fn install<R: Wait>(&mut self, rt: &R, next: Arc<Ruleset>) -> Result<Generation, SwapFault>
        ensures done { IfOk result (λ n. Installs self.old (arc_value next) n self.new) }
        ensures same { IfErr result (λ _. self.new ≡ self.old) }
        ensures exhausted { (result ≡ Err SwapFault.Exhausted)
            ↔ (self.old.latest.generation ≡ 2 ^ 64 - 1) }
        ensures placed { result ≢ Err SwapFault.NoPlace }
    {
        if self.known.generation() == u64::MAX {
            return Err(SwapFault::Exhausted);
        }
        next.invariant_law();
        let Ok(operation) = NextInstall::new(&self.end, &self.known, &next) else {
            return Err(SwapFault::Memory);
        };
        let grown = replace_with(
            &mut self.writer,
            (operation, rt),
            |writer, x| show(writer, x.0, x.1),
        );
        let Some(known) = grown else {
            return Err(SwapFault::Memory);
        };
        let generation = known.generation();
        self.known = known;
        self.latest = next;
        Ok(generation)
    }

    /// A watcher, which knows all that was installed. It takes a place for good. Returns H2 if none
    /// is left, and H1 if an allocation fails.
    // open: whether an allocation fails (H1).
    pub fn watcher(&mut self) -> Result<Watcher, SwapFault>
        ensures watches { IfOk result (λ w. w ≡ self.old.known) }
        ensures known { self.new.known ≡ self.old.known }
        ensures latest { self.new.latest ≡ self.old.latest }
        ensures places { IfOk result (λ _. self.new.places + 1 ≡ self.old.places) }
        ensures same { IfErr result (λ _. self.new ≡ self.old) }
        ensures full { (result ≡ Err SwapFault.NoPlace) ↔ (self.old.places ≡ 0) }
        ensures going { result ≢ Err SwapFault.Exhausted }
    {
        if self.places == 0 {
            return Err(SwapFault::NoPlace);
        }
        let Ok(mut reader) = self.writer.factory().reader() else {
            return Err(SwapFault::Memory);
        };
        reader.learn::<Taken>(self.writer.tell::<Shared>());
        self.places -= 1;
        Ok(Watcher::new(reader, self.known.copy()))
    }

    /// A notice of all that was installed, for its watchers to learn. It allocates nothing.
    pub fn tell(&self) -> Notice
        ensures { result ≡ self.now.known }
    {
        Notice::new(self.known.copy())
    }

    /// Waits for readers, and frees what it holds. Its watchers get nothing more.
    // open: that watchers get nothing afterwards.
    pub fn close<R: Wait>(self, rt: &R) {
        let Publisher {
            writer,
            end: _,
            known: _,
            latest: _,
            places: _,
        } = self;
        writer.take(rt);
    }
}
