//! A ruleset with the buckets' choices for each of its apps.

ghost use Rattle.std.specs.Prelude.{◌≡◌, ◌<◌, None, IfOk, IfSome, IfNone, is_none, length};
ghost use Rattle.std.specs.Prelude.{option_copied, take, drop};
ghost use Rattle.simulate.specs.Picked.{HasPicked, IsPlaceOf};
ghost use Rattle.simulate.specs.Shown as specs;
ghost use Rattle.simulate.specs.Clients.{IsSameButApp};
ghost use Rattle.simulate.specs.Counts.{choices_or_none};
ghost use Rattle.simulate.specs.Course.{IsSimulated};
ghost use Rattle.ruleset.specs.Rules.{app_in};

use crate::choices::Choices;
use crate::client::Client;
use crate::course::{Onlooker, simulate};
use ruleset::{App, Ruleset};
use std::alloc::{AllocError, Global};
use std::marker::Model;

/// The app with an appid, if there is one, and each bucket's choice.
pub(crate) type Offered<'a> = (Option<&'a App>, &'a Choices);

/// The result of simulating a ruleset: for all its apps, or for one.
#[derive(Drop)]
pub struct Simulated {
    rules: Ruleset,
    // The range of the simulated apps: `first` up to and without `end`.
    first: usize,
    end: usize,
    chosen: Vec<Choices>,
}

impl Model for Simulated {
    ghost use Rattle.std.specs.Prelude.{◌-◌, take, drop};
    ghost use Rattle.simulate.specs.Shown.{Simulation};
    ghost use Rattle.simulate.specs.Picked.{ArePlaces};

    ghost Value = { Simulation };

    ghost view = { λ s. record {
      apps = take (s.end - s.first) (drop s.first s.rules.apps);
      chosen = s.chosen.items;
    } };

    ghost invariant = { λ s. ArePlaces s.first s.end s.rules.apps };
}

impl Simulated {
    /// The simulation of a ruleset for clients like this one. The observer is called with its
    /// progress.
    // open: whether an allocation fails.
    pub fn of<O: Onlooker>(
        alloc: Global,
        rules: Ruleset,
        client: &mut Client,
        onlooker: &mut O,
    ) -> Result<Simulated, AllocError>
        ensures apps { IfOk result (λ s. s.apps ≡ rules.apps) }
        ensures chosen { IfOk result (λ s. IsSimulated client.old rules.apps s.chosen) }
        ensures client { IsSameButApp client.old client.new }
    {
        let chosen = simulate(alloc, &rules, client, onlooker)?;
        let end = rules.apps().len();
        Ok(Simulated {
            rules,
            first: 0,
            end,
            chosen,
        })
    }

    /// The simulation of only the app with an appid. All apps are run, as above, and only the
    /// choices for this app are kept. If the ruleset doesn't have the app, the result has no app.
    // open: whether an allocation fails.
    pub fn of_app<O: Onlooker>(
        alloc: Global,
        rules: Ruleset,
        appid: &str,
        client: &mut Client,
        onlooker: &mut O,
    ) -> Result<Simulated, AllocError>
        ensures picked { IfOk result (HasPicked client.old rules.apps appid.now) }
        ensures client { IsSameButApp client.old client.new }
    {
        let Some(place) = place_of(rules.apps(), appid) else {
            return Ok(Simulated {
                rules,
                first: 0,
                end: 0,
                chosen: Vec::new(alloc),
            });
        };
        let chosen = simulate(alloc, &rules, client, onlooker)?;
        let chosen = one_of(chosen, place)?;
        Ok(Simulated {
            rules,
            first: place,
            end: place + 1,
            chosen,
        })
    }

    /// The apps, in the ruleset's order.
    pub(crate) fn apps(&self) -> &[App]
        ensures { result.now ≡ self.now.apps }
    {
        &self.rules.apps()[self.first..self.end]
    }

    /// The buckets' choices for each app.
    pub(crate) fn chosen(&self) -> &[Choices]
        ensures { result.now ≡ self.now.chosen }
    {
        self.chosen.as_slice()
    }

    /// Whether no app has this appid.
    pub(crate) fn lacks(&self, appid: &str) -> bool
        ensures { result ≡ is_none (app_in self.now.apps appid.now) }
    {
        match place_of(self.apps(), appid) {
            Some(_) => false,
            None => true,
        }
    }

    /// The app with an appid, and the buckets' choices for it; `none` if there is no such app.
    pub(crate) fn offer<'a>(&'a self, none: &'a Choices, appid: &str) -> Offered<'a>
        requires { none.now ≡ choices_or_none None }
        ensures { specs.offered (option_copied result.0) result.1.now
            ≡ specs.offer_of self.now appid.now }
    {
        offer_in(self.apps(), self.chosen(), none, appid)
    }
}

// The place of the first app with an appid, from 0.
fn place_of(apps: &[App], appid: &str) -> Option<usize>
    ensures some { IfSome result (IsPlaceOf apps.now appid.now) }
    ensures none { IfNone result (app_in apps.now appid.now ≡ None) }
{
    let mut place = 0;
    let mut left = apps;
    while let [app, others @ ..] = left {
        if app.appid() == appid {
            return Some(place);
        }
        place += 1;
        left = others;
    }
    None
}

// Only the choices at a place.
fn one_of(mut chosen: Vec<Choices>, place: usize) -> Result<Vec<Choices>, AllocError>
    requires { place < length chosen.items }
    ensures { IfOk result (λ one. one.items ≡ take 1 (drop place chosen.items)) }
{
    let mut one = chosen.split_off(place)?;
    one.truncate(1);
    Ok(one)
}

fn offer_in<'a>(
    all: &'a [App],
    all_chosen: &'a [Choices],
    none: &'a Choices,
    appid: &str,
) -> Offered<'a>
    requires { none.now ≡ choices_or_none None }
    ensures { specs.offered (option_copied result.0) result.1.now
        ≡ specs.offer_in all.now all_chosen.now appid.now }
{
    let mut apps = all;
    let mut chosen = all_chosen;
    while let [app, more_apps @ ..] = apps {
        let [choices, more_chosen @ ..] = chosen else {
            return (None, none);
        };
        if app.appid() == appid {
            return (Some(app), choices);
        }
        apps = more_apps;
        chosen = more_chosen;
    }
    (None, none)
}
