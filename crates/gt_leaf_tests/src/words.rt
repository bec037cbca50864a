//! Words are kept, and memory is given.

use gt_words::{NONE, PlainWords, Words, wake};
use std::test::Fail;

#[test]
fn words_are_kept(rt: HostRuntime) -> Result<(), Fail> {
    let mut words = PlainWords::new(rt.alloc(), 2)?;
    assert_eq!(rt; wake(&mut words, 0), NONE);
    assert_eq!(rt; wake(&mut words, 1), NONE);
    words.note(1, 7);
    words.lower(1, 9);
    assert_eq!(rt; wake(&mut words, 1), 7);
    assert!(rt; !words.try_clear(1, 9));
    assert!(rt; words.try_clear(1, 7));
    words.bump(1);
    words.raise(1, 12);
    assert_eq!(rt; wake(&mut words, 1), 12);
    assert_eq!(rt; words.load_count(1), 1);
    assert_eq!(rt; wake(&mut words, 0), NONE);
    Ok(())
}
