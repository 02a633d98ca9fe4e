// What conductors need before hands are hired; and how hands become runners, and come back.
ghost use Rattle.std.specs.Prelude.{◌≡◌, ◌≤◌, ◌++◌, [], IfOk, length, map, vec_capacity, vec_len};
ghost use Rattle.std.specs.Arc.{arc_value};
ghost use Rattle.std.specs.List.{All};
ghost use Rattle.tf_conductor.specs.Rounds.{AreDifferent, AreNamedBy};

use crate::files::JobFile;
use crate::runner::FileRunner;
use std::alloc::Global;
use std::sync::Arc;
use tf_actions::Performer;
use tf_conductor::owners_of;
use tf_values::{Memory, Name, Names};

/// What conductors need besides their hands: their owners, the files with a share for each conductor, and room for the
/// runners.
#[derive(Drop)]
pub(crate) struct Ready<P> {
    pub(crate) owners: Names,
    pub(crate) files: Arc<Vec<JobFile>, Global>,
    pub(crate) shares: Vec<Arc<Vec<JobFile>, Global>>,
    pub(crate) room: Vec<FileRunner<P>>,
}

/// All that so many conductors need besides their hands, so that no memory is needed once these are hired.
pub(crate) fn prepare<P: Performer>(
    alloc: Global,
    files: Vec<JobFile>,
    word: &Name,
    count: u8,
) -> Result<Ready<P>, Memory>
    requires short { length word.now ≤ 61 }
    requires few { count ≤ 64 }
    ensures owners { IfOk result (λ ready. (length ready.owners ≡ count) × AreNamedBy word.now ready.owners
        × AreDifferent ready.owners) }
    ensures files { IfOk result (λ ready. arc_value ready.files ≡ files) }
    ensures shares { IfOk result (λ ready. (vec_len ready.shares ≡ count)
        × All (λ share. arc_value share ≡ arc_value ready.files) ready.shares.items) }
    ensures room { IfOk result (λ ready. (ready.room.items ≡ []) × (count ≤ vec_capacity ready.room)) }
{
    let owners = owners_of(alloc, word, count)?;
    let files = Arc::new(alloc, files)?;
    let shares = shares_of(alloc, &files, count)?;
    let room = Vec::with_capacity(alloc, usize::from(count))?;
    Ok(Ready {
        owners,
        files,
        shares,
        room,
    })
}

/// So many shares of the files.
fn shares_of(
    alloc: Global,
    files: &Arc<Vec<JobFile>, Global>,
    count: u8,
) -> Result<Vec<Arc<Vec<JobFile>, Global>>, Memory>
    ensures count { IfOk result (λ shares. vec_len shares ≡ count) }
    ensures files { IfOk result (λ shares. All (λ share. arc_value share ≡ arc_value files.now) shares.items) }
{
    let mut shares = Vec::with_capacity(alloc, usize::from(count))?;
    for _made in 0..count {
        let share = Arc::try_clone(files)?;
        shares.push_reserved(share);
    }
    Ok(shares)
}

/// A runner with each of the hands, in their order, and a share of the files. The list of the hands keeps its room.
pub(crate) fn runners_of<P: Performer>(
    hands: &mut Vec<P>,
    shares: Vec<Arc<Vec<JobFile>, Global>>,
    room: Vec<FileRunner<P>>,
) -> Vec<FileRunner<P>>
    requires count { vec_len shares ≡ vec_len hands.old }
    requires room { (room.items ≡ []) × (vec_len shares ≤ vec_capacity room) }
    ensures hands { map (λ runner. runner.hand) result.items ++ hands.new.items ≡ hands.old.items }
    ensures shares { map (λ runner. runner.files) result.items ≡ shares.items }
    ensures count { vec_len result ≡ vec_len shares }
    ensures empty { hands.new.items ≡ [] }
    ensures kept { vec_capacity hands.new ≡ vec_capacity hands.old }
{
    let mut runners = room;
    for share in shares {
        let hand = hands.remove(0);
        runners.push_reserved(FileRunner::make(hand, share));
    }
    runners
}

/// The hands of runners back, in their order.
pub(crate) fn hands_of<P: Performer>(runners: Vec<FileRunner<P>>, room: Vec<P>) -> Vec<P>
    requires room { (room.items ≡ []) × (vec_len runners ≤ vec_capacity room) }
    ensures count { vec_len result ≡ vec_len runners }
{
    let mut hands = room;
    for runner in runners {
        hands.push_reserved(runner.into_hand());
    }
    hands
}
