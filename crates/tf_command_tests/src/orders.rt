use crate::faults::{TWO_ECHOES, desk, links_of};
use std::test::Fail;
use tf_commands::{Ended, Outside, taskflow};
use tf_ports::{Hands, MemoryCrew, MemoryDoor, MemoryPerformer, MemorySource, MemorySources};
use tf_values::Text;
use tf_words::Word;

#[test]
fn the_hand_of_a_trial_is_given_back_with_its_orders(rt: HostRuntime) -> Result<(), Fail> {
    let alloc = rt.alloc();
    let mut words = Vec::new(alloc);
    words.push(Word::make(String::from_str(alloc, "try")?))?;
    words.push(Word::make(String::from_str(alloc, "flow.toml")?))?;
    let mut sources = Vec::new(alloc);
    sources.push(MemorySource {
        name: Text::make(alloc, b"flow.toml")?,
        bytes: Vec::from_slice(alloc, TWO_ECHOES)?,
    })?;
    let mut hands = Vec::new(alloc);
    hands.push(MemoryPerformer::make(alloc, Vec::new(alloc)))?;
    let outside = Outside {
        desk: desk(alloc, &[])?,
        sources: MemorySources::make(sources, Vec::new(alloc)),
        crew: MemoryCrew::make(alloc, hands, Vec::new(alloc)),
        door: MemoryDoor::make(alloc, links_of(alloc, &[])?, Vec::new(alloc)),
    };
    let Ended { outside, status } = taskflow(&rt, alloc, &words, outside);
    assert_eq!(rt; status, 0);
    let Some(Hands::Local(back)) = outside.crew.back() else {
        panic!(rt; "no hand was given back");
    };
    assert_eq!(rt; back.len(), 1);
    assert_eq!(rt; back[0].did().len(), 2);
    Ok(())
}
