// The check on the small port's language as an image, and on copies of it with one byte changed.
use cnc::check::check_image;
use flaw::kinds::ImageFault;

#[rattlefmt::skip]
const PORT: [u8; 144] = [
    // head: mark, version, categories, functions, start, words, rules, symbols, spelled bytes
    b'C', b'N', b'C', 1, 0, 2, 4, 0, 3, 0, 4, 0, 7, 0, 15, 0,
    // dimensions, from 16 on
    1, 1,
    // functions, from 18 on
    0, 1, 1, 0, 0,
    1, 0, 0, 0, 0,
    1, 0, 0, 0, 0,
    0, 1, 0, 0, 0,
    // words, from 38 on
    0, 0, 4,
    4, 0, 5,
    9, 0, 6,
    // rules, from 47 on
    0, 0, 0, 0, 0, 0, 0, 2, 0, 0, 0, 0, 0, 0, 0, 0, 0,
    1, 0, 0, 0, 0, 2, 0, 1, 0, 0, 0, 0, 0, 0, 0, 0, 0,
    2, 0, 0, 0, 0, 3, 0, 1, 0, 0, 0, 0, 0, 0, 0, 0, 0,
    3, 0, 0, 0, 0, 4, 0, 3, 0, 0, 0, 0, 0, 0, 0, 0, 0,
    // symbols, from 115 on
    0, 0, 0, 0x80, 1, 0, 1, 0, 0, 0x80, 2, 0, 0, 0x80,
    // spelled bytes, from 129 on
    b'h', b'o', b'l', b'd',
    b't', b'h', b'r', b'e', b'e',
    b'r', b'e', b'p', b'e', b'a', b't',
];

// Copies with one byte changed: its place and value, and the fault that the check then tells.
#[rattlefmt::skip]
const DAMAGED: [(usize, u8, ImageFault); 30] = [
    (0, 0, ImageFault::Mark { byte: 0 }),
    (1, b'M', ImageFault::Mark { byte: 1 }),
    (4, 1, ImageFault::Mark { byte: 4 }),
    (5, 0, ImageFault::Range { byte: 5 }),
    (6, 65, ImageFault::Range { byte: 6 }),
    (7, 2, ImageFault::Range { byte: 7 }),
    (9, 4, ImageFault::Range { byte: 8 }),
    (11, 2, ImageFault::Range { byte: 10 }),
    (13, 16, ImageFault::Range { byte: 12 }),
    (15, 64, ImageFault::Range { byte: 14 }),
    (8, 4, ImageFault::Total),
    (16, 0, ImageFault::Field { byte: 16 }),
    (17, 5, ImageFault::Field { byte: 17 }),
    (18, 2, ImageFault::Field { byte: 18 }),
    (19, 4, ImageFault::Field { byte: 19 }),
    (20, 2, ImageFault::Field { byte: 20 }),
    (37, 1, ImageFault::Field { byte: 37 }),
    (40, 0, ImageFault::Word { entry: 0 }),
    (41, 11, ImageFault::Word { entry: 1 }),
    (46, 25, ImageFault::Word { entry: 2 }),
    (143, 0x7F, ImageFault::Word { entry: 2 }),
    (47, 4, ImageFault::Rule { entry: 0 }),
    (64, 0, ImageFault::Rule { entry: 1 }),
    (85, 8, ImageFault::Rule { entry: 2 }),
    (103, 5, ImageFault::Rule { entry: 3 }),
    (106, 1, ImageFault::Rule { entry: 3 }),
    (115, 3, ImageFault::Symbol { symbol: 0 }),
    (117, 1, ImageFault::Symbol { symbol: 1 }),
    (122, 0x80, ImageFault::Symbol { symbol: 3 }),
    (127, 4, ImageFault::Symbol { symbol: 6 }),
];

#[test]
fn the_port_is_sound(rt: HostRuntime) {
    assert_eq!(rt; check_image(&PORT).err(), None);
}

#[test]
fn the_length_is_checked(rt: HostRuntime) {
    let mut longer = [0; 145];
    longer[0..144].copy_from_slice(&PORT);
    assert_eq!(rt; check_image(&longer).err(), Some(ImageFault::Total));
    assert_eq!(rt; check_image(&PORT[0..143]).err(), Some(ImageFault::Total));
    assert_eq!(rt;
        check_image(&PORT[0..15]).err(),
        Some(ImageFault::Short { length: 15 })
    );
    assert_eq!(rt; check_image(&[]).err(), Some(ImageFault::Mark { byte: 0 }));
}

#[test]
fn the_first_broken_rule_is_told(rt: HostRuntime) {
    for (index, value, fault) in DAMAGED {
        let mut bytes = PORT;
        assert!(rt; index < bytes.len());
        bytes[index] = value;
        assert_eq!(rt; check_image(&bytes).err(), Some(fault));
    }
}
