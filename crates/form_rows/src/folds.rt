ghost use Rattle.std.specs.Prelude.{◌≡◌, ◌≤◌};

use hic_word::{Kind, Line, WIDTH, Word, empty, is_zero, num};
use seg_canon::{Folded, Opened, Part, fold, number_at, open_part, part_of, parts_of, unpack};

fn word(kind: Kind, height: u8, bits: u64) -> Word {
    Word { kind, height, bits }
}

fn part(top: u8, at: u8, entry: Word) -> Part
    ensures { result.top ≡ top }
{
    Part { top, at, entry }
}

// the entry, where no line is made
fn entry_of(folded: Folded<WIDTH>) -> Option<Word> {
    match folded {
        Folded::Zero => Some(num(0)),
        Folded::Pack(entry) | Folded::Path(entry) => Some(entry),
        Folded::NeedLine(_) => None,
    }
}

// the only quarter that is not empty, with its number
fn quarter_of(part: Part) -> Option<(u8, Part)>
    requires { 1 ≤ part.top }
{
    match open_part::<WIDTH>(part) {
        Opened::One(place, quarter) => Some((place, quarter)),
        _ => None,
    }
}

#[test]
fn parts_are_folded(rt: HostRuntime) {
    let zero = num(0);
    let pack = word(Kind::Pack, 0, 65536);
    let node = word(Kind::Node, 0, 5);
    let path = word(Kind::Node, 0, 576460752320200709);
    for (entries, height, want) in [
        ([zero; 4], 1, Some(zero)),
        ([zero; 4], 16, Some(zero)),
        ([zero, num(1), zero, zero], 1, Some(pack)),
        ([zero, num(70000), zero, zero], 1, None),
        ([zero, pack, zero, zero], 2, None),
        ([zero, node, zero, zero], 2, Some(path)),
        ([node, node, zero, zero], 2, None),
    ] {
        assert_eq!(rt;
            entry_of(fold(&entries, height)),
            want,
            "{height} {entries:?}"
        );
    }
}

#[test]
fn parts_are_opened(rt: HostRuntime) {
    // {5: 70000}: height 2, a line of id 5 with the path 1
    let root = Word {
        kind: Kind::RefNode,
        height: 2,
        bits: 576460752320200709,
    };
    let path = word(Kind::Node, 0, root.bits);
    let node = word(Kind::Node, 0, 5);
    assert_eq!(rt; part_of::<WIDTH>(root, 3), part(3, 2, path));
    assert_eq!(rt; quarter_of(part(3, 2, path)), Some((0, part(2, 2, path))));
    assert_eq!(rt; quarter_of(part(2, 2, path)), Some((1, part(1, 1, node))));
    match open_part::<WIDTH>(part(1, 1, node)) {
        Opened::Stored(id) => assert_eq!(rt; id.get(), 5),
        _ => assert!(rt; false),
    }
    match open_part::<WIDTH>(part_of::<WIDTH>(empty(), 16)) {
        Opened::Zero => {}
        _ => assert!(rt; false),
    }
}

#[test]
fn packed_numbers_are_read(rt: HostRuntime) {
    // 1 + 2 * 2^16 + 3 * 2^32 + 65535 * 2^48
    let pack = Word {
        kind: Kind::RefPack,
        height: 1,
        bits: 18446462611617873921,
    };
    let numbers = [num(1), num(2), num(3), num(65535)];
    for (place, number) in numbers.iter().enumerate() {
        assert_eq!(rt; unpack::<WIDTH>(pack)[place], *number);
        assert_eq!(rt; number_at::<WIDTH>(pack, place as u32), *number);
    }
    match open_part::<WIDTH>(part_of::<WIDTH>(pack, 1)) {
        Opened::Words(words) => assert_eq!(rt; words[3], num(65535)),
        _ => assert!(rt; false),
    }
    let line = Line {
        w: [num(0), word(Kind::Pack, 0, 65536), num(0), num(0)],
    };
    for (place, quarter) in parts_of(&line, 2).iter().enumerate() {
        assert_eq!(rt; *quarter, part(1, 1, line.w[place]));
        assert_eq!(rt; is_zero(quarter.entry), place != 1);
    }
}
