// Words that were worked out by hand, in one thread.
use page_words::{PageWords, WordsAndSeat};
use std::test::Fail;

#[test]
fn a_word_by_hand(rt: HostRuntime) -> Result<(), Fail> {
    let WordsAndSeat { words, mut seat } = PageWords::new(rt.alloc(), 1)?;
    let mut touch = words.split(&mut seat, 0);
    let seen = [
        words.touch(&mut touch, 0),
        words.clear(&mut seat, 0, 3),
        words.touch(&mut touch, 0),
        words.load(&mut seat, 0),
    ];
    words.gather(&mut seat, touch);
    let left = words.settle(seat).word(0);
    assert_eq!(rt; (seen, left), ([0, 1, 3, 7], 7));
    Ok(())
}

// Two seats touch page 2, and one of them is gathered before the load.
#[test]
fn a_gathered_touch_shows(rt: HostRuntime) -> Result<(), Fail> {
    let WordsAndSeat { words, mut seat } = PageWords::new(rt.alloc(), 3)?;
    let mut one = words.split(&mut seat, 1);
    let mut two = words.split(&mut seat, 2);
    let seen = [
        words.clear(&mut seat, 2, 1),
        words.touch(&mut one, 2),
        words.touch(&mut two, 2),
    ];
    words.gather(&mut seat, one);
    let loaded = words.load(&mut seat, 2);
    assert_eq!(rt; (seen, loaded), ([0, 1, 1], 3));
    Ok(())
}
