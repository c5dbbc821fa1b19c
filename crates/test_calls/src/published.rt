//! The published ruleset: what watchers get after an install, with a notice of it and without one,
//! and during a hundred installs.

ghost use Rattle.std.specs.Prelude.{◌≡◌};

use hot_swap::{Notice, Publisher, SwapFault, Watcher};
use ruleset::Ruleset;
use std::alloc::Global;
use std::process::Abort;
use std::sync::{Arc, Wait};
use std::thread::{Threads, join};

/// A ruleset whose server has this number for its name.
fn numbered<R: Abort>(rt: &R, alloc: Global, number: u64) -> Arc<Ruleset> {
    let server = format!(in alloc; "{number}").expect(rt, "memory");
    let rules = Ruleset::new(server, Vec::new(alloc)).expect(rt, "a ruleset");
    Arc::new(alloc, rules).expect(rt, "memory")
}

/// A publisher of the ruleset 1, with places for two watchers.
fn publisher<R: Abort + Wait>(rt: &R, alloc: Global) -> Publisher {
    Publisher::new(rt, alloc, numbered(rt, alloc, 1), 2).expect(rt, "a publisher")
}

/// The generation that a watcher gets, or 0 if it gets none, or another generation's ruleset.
fn generation_of(watcher: &mut Watcher) -> u64 {
    match watcher.current() {
        Ok((generation, rules)) if rules.server().parse::<u64>() == Ok(generation) => generation,
        _ => 0,
    }
}

fn install<R: Abort + Wait>(rt: &R, alloc: Global, publisher: &mut Publisher, number: u64) {
    let installed = publisher.install(rt, numbered(rt, alloc, number));
    let _generation = installed.expect(rt, "a generation");
}

/// What a watcher without notices gets, before the ruleset 2 is installed and after it.
fn before_and_after<R: Abort + Wait>(rt: &R, alloc: Global, publisher: &mut Publisher) -> [u64; 2] {
    let mut watcher = publisher.watcher().expect(rt, "a watcher");
    let before = generation_of(&mut watcher);
    install(rt, alloc, publisher, 2);
    [before, generation_of(&mut watcher)]
}

/// What a watcher gets after the ruleset 3 is installed and it has a notice, and what after 4.
fn by_notice<R: Abort + Wait>(rt: &R, alloc: Global, publisher: &mut Publisher) -> [u64; 2] {
    let mut watcher = publisher.watcher().expect(rt, "a watcher");
    let installed = publisher.install(rt, numbered(rt, alloc, 3));
    let _generation = installed.expect(rt, "a generation");
    let notice = publisher.tell();
    watcher.learn(&notice);
    let before = generation_of(&mut watcher);
    install(rt, alloc, publisher, 4);
    [before, generation_of(&mut watcher)]
}

#[test]
fn watchers_get_what_is_published(rt: HostRuntime) {
    let mut publisher = publisher(&rt, rt.alloc());
    let first = before_and_after(&rt, rt.alloc(), &mut publisher);
    let second = by_notice(&rt, rt.alloc(), &mut publisher);
    let third = publisher.watcher().err();
    publisher.close(&rt);
    assert!(rt; first == [1, 2] && second == [3, 4]);
    assert!(rt; third == Some(SwapFault::NoPlace));
}

/// What a watcher gets after a notice.
fn generation_after(mut watcher: Watcher, notice: &Notice) -> u64
    requires { notice.now.publisher ≡ watcher.publisher }
{
    watcher.learn(notice);
    generation_of(&mut watcher)
}

/// What two watchers in two threads get that learn one notice.
fn both_generations<R: Abort + Threads + Wait + Sync>(
    rt: &R,
    alloc: Global,
    publisher: &mut Publisher,
) -> (u64, u64) {
    let one = publisher.watcher().expect(rt, "a watcher");
    let two = publisher.watcher().expect(rt, "a watcher");
    let installed = publisher.install(rt, numbered(rt, alloc, 2));
    let _generation = installed.expect(rt, "a generation");
    let notice = publisher.tell();
    let notice = &notice;
    join(
        rt,
        move ||
            requires { notice.now.publisher ≡ one.publisher }
        { generation_after(one, notice) },
        move ||
            requires { notice.now.publisher ≡ two.publisher }
        { generation_after(two, notice) },
    )
}

#[test]
fn one_notice_reaches_two(rt: HostRuntime) {
    let mut publisher = publisher(&rt, rt.alloc());
    let found = both_generations(&rt, rt.alloc(), &mut publisher);
    publisher.close(&rt);
    assert!(rt; found == (2, 2));
}

/// How often, among a thousand times, a watcher gets a lower generation than the time before, or
/// another generation's ruleset.
fn falls(mut watcher: Watcher) -> (Watcher, u64) {
    let mut last = 1;
    let mut count = 0u64;
    for _ in 0..1000 {
        let generation = generation_of(&mut watcher);
        if generation < last {
            count = count.saturating_add(1);
        }
        last = generation;
    }
    (watcher, count)
}

/// Installs the rulesets 2 to 101, and returns how many installs failed.
fn install_all<R: Abort + Wait>(rt: &R, alloc: Global, publisher: &mut Publisher) -> u64 {
    let mut refused = 0u64;
    for number in 2..102 {
        if publisher.install(rt, numbered(rt, alloc, number)) != Ok(number) {
            refused = refused.saturating_add(1);
        }
    }
    refused
}

/// Two threads watch while a third installs: how many installs fail, how often each watcher falls
/// back, and which generation each gets afterwards.
fn watch_by_two<R: Abort + Threads + Wait + Sync>(
    rt: &R,
    alloc: Global,
    publisher: &mut Publisher,
) -> [u64; 5] {
    let one = publisher.watcher().expect(rt, "a watcher");
    let two = publisher.watcher().expect(rt, "a watcher");
    let ((mut one, one_falls), ((mut two, two_falls), refused)) = join(
        rt,
        move || falls(one),
        || join(rt, move || falls(two), || install_all(rt, alloc, publisher)),
    );
    let (one_last, two_last) = (generation_of(&mut one), generation_of(&mut two));
    [refused, one_falls, two_falls, one_last, two_last]
}

#[test]
fn generations_never_fall(rt: HostRuntime) {
    let mut publisher = publisher(&rt, rt.alloc());
    let found = watch_by_two(&rt, rt.alloc(), &mut publisher);
    publisher.close(&rt);
    assert!(rt; found == [0, 0, 0, 101, 101]);
}
