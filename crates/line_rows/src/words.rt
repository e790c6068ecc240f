use hic_word::equal::{same_line, same_word};
use hic_word::{Kind, Line, LineId, WIDTH, Word, empty, is_ref, names, num};

fn word(kind: Kind, height: u8, bits: u64) -> Word {
    Word { kind, height, bits }
}

#[test]
fn words_name_lines(rt: HostRuntime) {
    // an entry of line 5 with the path 1, a reference of height 2 to the same, and words that name no line
    let path = 576460752320200709;
    for (value, reference, id) in [
        (word(Kind::Node, 0, path), false, Some(5)),
        (word(Kind::RefNode, 2, path), true, Some(5)),
        (word(Kind::Pack, 0, 65536), false, None),
        (word(Kind::RefPack, 1, 65536), true, None),
        (num(path), false, None),
        (empty(), true, None),
    ] {
        assert_eq!(rt; is_ref(value), reference, "{value:?}");
        assert_eq!(rt; names(value).map(|line| line.get()), id, "{value:?}");
    }
    assert_eq!(rt; LineId::make(16777215).get(), 16777215);
}

#[test]
fn words_and_lines_are_compared(rt: HostRuntime) {
    // the reference to the empty array is not the number 0
    assert!(rt; !same_word(empty(), num(0)));
    let zeros = Line { w: [num(0); WIDTH] };
    for place in 0..4 {
        let mut other = zeros;
        other.w[place] = empty();
        assert!(rt;
            same_line(&other, &other) && !same_line(&zeros, &other),
            "{place}"
        );
    }
}
