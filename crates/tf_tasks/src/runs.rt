ghost use Rattle.std.specs.Prelude.{◌≡◌, ◌∷◌, [], ◌++◌, ◌≤◌, length, map, true, false, IfOk, OnErr, ◌⊎◌};
ghost use Rattle.std.specs.List.{list_all};
ghost use Rattle.tf_actions.specs.Built.{plain_pair};
ghost use Rattle.tf_actions.specs.Gives.{GivesText, GivesNothing};
ghost use Rattle.tf_ports.specs.declared.programs.Done.{Done as AnEnd};
ghost use Rattle.tf_tasks.specs.Run.{has_text, without_feed as unfed, spelled, ended, spawns, RunsNone, RunsOnce, EndsWith, RunsTo, RunsAtMost, dropped};

use crate::plain::append_plain;
use std::alloc::Global;
use tf_actions::{Outcome, Pair};
use tf_ports::{Done, SpawnFault, Spawner};
use tf_states::Failure;
use tf_values::{MakeFault, Memory, Text, Texts, Val};

/// The most bytes of a text.
const TEXT_LIMIT: usize = 65_536;

/// Runs the program of these words with the arguments behind them. Where one of these is no text it isn't run.
pub fn run<S: Spawner>(
    alloc: Global,
    spawner: &mut S,
    words: &[Text],
    pairs: &[Pair],
) -> Result<Outcome, Memory>
    requires { 1 ≤ length words.now }
    ensures runs { IfOk result (λ outcome. RunsTo (spawns S.answers S.faults S.ran spawner.old spawner.new) words.now
        pairs.now outcome) }
    ensures at_most { OnErr result (RunsAtMost (spawns S.answers S.faults S.ran spawner.old spawner.new) words.now
        pairs.now) }
    ensures gives { IfOk result (λ outcome. GivesText outcome) }
    ensures unrun { list_all has_text pairs.now ≡ false → spawner.new ≡ spawner.old }
    ensures no_fall { S.faults spawner.old ≤ S.faults spawner.new }
{
    let [program, others @ ..] = words else {
        unreachable!();
    };
    let mut passed = copies(alloc, others)?;
    if !append_texts(alloc, pairs, &mut passed)? {
        return Ok(Outcome::Failed(Failure::TooLong));
    }
    run_with(alloc, spawner, program, &Texts::make(passed))
}

/// Runs a program with these arguments.
fn run_with<S: Spawner>(
    alloc: Global,
    spawner: &mut S,
    program: &Text,
    args: &Texts,
) -> Result<Outcome, Memory>
    ensures ends { IfOk result (λ outcome. EndsWith (spawns S.answers S.faults S.ran spawner.old spawner.new)
        (record { program = program.now; args = args.now }) outcome) }
    ensures at_most { OnErr result (RunsNone (spawns S.answers S.faults S.ran spawner.old spawner.new)
        ⊎ ((done : AnEnd) × RunsOnce (spawns S.answers S.faults S.ran spawner.old spawner.new)
        (record { program = program.now; args = args.now }) done)) }
    ensures gives { IfOk result (λ outcome. GivesText outcome) }
    ensures no_fall { S.faults spawner.old ≤ S.faults spawner.new }
{
    match spawner.run(alloc, program, args) {
        Ok(done) => finish(alloc, &done),
        Err(SpawnFault::Failed) => Ok(Outcome::Failed(Failure::Spawn)),
        Err(SpawnFault::Memory) => Err(Memory),
    }
}

/// Equal texts.
fn copies(alloc: Global, texts: &[Text]) -> Result<Vec<Text>, Memory>
    ensures { IfOk result (λ copies. copies.items ≡ texts.now) }
{
    let mut copies = Vec::with_capacity(alloc, texts.len())?;
    for text in texts {
        copies.push(text.copy(alloc)?)?;
    }
    Ok(copies)
}

/// Appends the plain bytes of each argument, and answers whether all of them are texts.
fn append_texts(alloc: Global, pairs: &[Pair], out: &mut Vec<Text>) -> Result<bool, Memory>
    ensures all { IfOk result (λ fits. fits ≡ list_all has_text pairs.now) }
    ensures texts { IfOk result (λ fits. fits ≡ true → out.new.items ≡ out.old.items ++ map plain_pair pairs.now) }
{
    for pair in pairs {
        if !append_text(alloc, pair, out)? {
            return Ok(false);
        }
    }
    Ok(true)
}

/// Appends the plain bytes of an argument where they are a text, and answers whether they are.
fn append_text(alloc: Global, pair: &Pair, out: &mut Vec<Text>) -> Result<bool, Memory>
    ensures is { IfOk result (λ fits. fits ≡ has_text pair.now) }
    ensures text { IfOk result (λ fits. fits ≡ true → out.new.items ≡ out.old.items ++ plain_pair pair.now ∷ []) }
{
    let mut bytes = Vec::new(alloc);
    append_plain(&pair.value, &mut bytes)?;
    match Text::make(alloc, &bytes) {
        Ok(text) => {
            out.push(text)?;
            Ok(true)
        }
        Err(MakeFault::No) => Ok(false),
        Err(MakeFault::Memory) => Err(Memory),
    }
}

/// What a program gives that ended so.
fn finish(alloc: Global, done: &Done) -> Result<Outcome, Memory>
    ensures is { IfOk result (λ outcome. outcome ≡ ended done.now) }
    ensures gives { IfOk result (λ outcome. GivesText outcome) }
{
    if done.status != 0 {
        return Ok(Outcome::Failed(Failure::Exit(done.status)));
    }
    let bytes = done.out.items();
    if bytes.len() > TEXT_LIMIT {
        return Ok(Outcome::Failed(Failure::TooLong));
    }
    spell(alloc, bytes)
}

/// The text of an output without one last line feed.
fn spell(alloc: Global, bytes: &[u8]) -> Result<Outcome, Memory>
    ensures is { IfOk result (λ outcome. outcome ≡ spelled bytes.now) }
    ensures gives { IfOk result (λ outcome. GivesText outcome) }
{
    match Text::make(alloc, without_feed(bytes)) {
        Ok(text) => Ok(Outcome::Gave(Val::Text(text))),
        Err(MakeFault::No) => Ok(Outcome::Failed(Failure::NotText)),
        Err(MakeFault::Memory) => Err(Memory),
    }
}

/// The bytes without one last line feed.
fn without_feed(bytes: &[u8]) -> &[u8]
    ensures { result.now ≡ unfed bytes.now }
{
    match bytes.last() {
        Some(10) => &bytes[..bytes.len() - 1],
        _ => bytes,
    }
}

/// The same outcome with the output dropped.
pub fn drop_output(outcome: Outcome) -> Outcome
    ensures is { result ≡ dropped outcome }
    ensures gives { GivesText outcome → GivesNothing result }
{
    match outcome {
        Outcome::Gave(_) => Outcome::Gave(Val::Nothing),
        Outcome::Failed(fault) => Outcome::Failed(fault),
    }
}
