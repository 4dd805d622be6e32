// The word writer on examples.
use writer::{PageFault, WordWriter, write_words};

#[test]
fn words_stand_from_the_start_place_on(rt: HostRuntime) {
    let words: [&[u8]; 2] = [b"hold", b"three"];
    let mut page = [b'.'; 12];
    assert_eq!(rt; write_words(&mut page, 1, &words), Ok(10));
    assert!(rt; page == *b".hold three.");
    assert_eq!(rt; write_words(&mut page, 2, &words), Ok(10));
    assert!(rt; page == *b".hhold three");
}

#[test]
fn a_text_that_does_not_fit_leaves_the_page(rt: HostRuntime) {
    let words: [&[u8]; 2] = [b"hold", b"three"];
    let mut page = [b'.'; 12];
    assert_eq!(rt;
        write_words(&mut page, 3, &words),
        Err(PageFault { length: 10 })
    );
    assert_eq!(rt;
        write_words(&mut page, 13, &[]),
        Err(PageFault { length: 0 })
    );
    assert_eq!(rt; write_words(&mut page, 12, &[]), Ok(0));
    assert!(rt; page == [b'.'; 12]);
}

#[test]
fn a_word_is_written_whole_or_not_at_all(rt: HostRuntime) {
    let mut part = [b'.'; 8];
    let mut writer = WordWriter::new(&mut part);
    assert!(rt; writer.write_word(b"hold"));
    assert!(rt; !writer.write_word(b"three"));
    assert!(rt; writer.begin_word() && writer.put(b'a') && writer.put(b'n') && writer.put(b'd'));
    assert!(rt; !writer.put(b's') && !writer.begin_word());
    assert_eq!(rt; writer.used(), 8);
    assert!(rt; part == *b"hold and");
}
