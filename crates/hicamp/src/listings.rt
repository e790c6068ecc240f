//! What programs leave, by their listings.

use super::Status;
use crate::programs::{BOTH_OPEN, check_source, writers};
use std::alloc::Global;
use std::test::Fail;

/// A source, and the listing of what it leaves.
type Row = (&'static str, &'static str);

static DATA: [Row; 8] = [
    ("halt\n", "end halted\nlines 0 of 65536\n"),
    (
        ".seg plain\n.data 0 0 1\n.data 0 1 2\nhalt\n",
        "end halted\nlines 0 of 65536\nseg 0 h1 [1,2,0,0]\n",
    ),
    (
        ".seg plain\n.data 0 0 65536\nhalt\n",
        "end halted\nlines 1 of 65536\nseg 0 h1 #0\n#0 n1 65536 0 0 0\n",
    ),
    (
        ".seg plain\n.data 0 0 65535\nhalt\n",
        "end halted\nlines 0 of 65536\nseg 0 h1 [65535,0,0,0]\n",
    ),
    (
        ".seg plain\n.data 0 5 1\nhalt\n",
        "end halted\nlines 1 of 65536\nseg 0 h2 #0\n#0 n1 0 [0,1,0,0] 0 0\n",
    ),
    (
        ".seg plain\n.data 0 5 70000\nhalt\n",
        "end halted\nlines 1 of 65536\nseg 0 h2 #0/1\n#0 n1 0 70000 0 0\n",
    ),
    (
        ".seg plain\n.data 0 4294967295 70000\nhalt\n",
        "end halted\nlines 1 of 65536\nseg 0 h16 #0/333333333333333\n#0 n1 0 0 0 70000\n",
    ),
    (
        ".seg plain\n.data 0 0 1\n.data 0 4294967295 2\nhalt\n",
        "end halted\nlines 3 of 65536\nseg 0 h16 #0\n#0 n1 #1/0000000000000 0 0 #2/3333333333333\n\
        #1 n1 [1,0,0,0] 0 0 0\n#2 n1 0 0 0 [0,0,0,2]\n",
    ),
];

#[test]
fn data_is_listed(rt: HostRuntime) -> Result<(), Fail> {
    for (source, listing) in &DATA {
        let written = listing.as_bytes();
        check_source(
            &rt,
            rt.alloc(),
            source,
            b"",
            "lines p",
            Status::Done,
            written,
            b"",
        )?;
    }
    Ok(())
}

/// Two writers of which the second changes nothing: how the source begins, and the second writer's offset and word.
static UNCHANGED: [(&str, &str, &str); 4] = [
    (".seg merge\n", "0", "70002"),
    (".seg merge\n", "0", "70001"),
    (".seg plain\n", "5", "70002"),
    (".seg merge\n.data 0 0 7\n", "0", "7"),
];

#[test]
fn a_second_writer_can_leave_what_the_first_wrote(rt: HostRuntime) -> Result<(), Fail> {
    for (head, offset, word) in &UNCHANGED {
        let source = writers(rt.alloc(), head, "putn r2\n", offset, word)?;
        check_source(
            &rt,
            rt.alloc(),
            source.as_str(),
            BOTH_OPEN,
            "lines p --schedule s",
            Status::Done,
            b"end halted\nlines 1 of 65536\nseg 0 h1 #0\n#0 n1 70001 0 0 0\n",
            b"",
        )?;
    }
    Ok(())
}

/// Merges 4,097 changes, from segment 1 to segment 2, into segment 0 with this data.
fn wider_merge(alloc: Global, data: &str) -> Result<String, Fail> {
    let mut source = format!(in alloc; ".seg merge\n.seg merge\n.seg merge\n{data}")?;
    for offset in 0..4097u32 {
        let record = format!(in alloc; ".data 2 {offset} 1\n")?;
        source.push_str(record.as_str())?;
    }
    source.push_str(
        "li r0 1\nroot r1 r0\nli r0 2\nroot r2 r0\nli r0 0\nmcas r0 r1 r2\nputn r0\nhalt\n",
    )?;
    Ok(source)
}

/// The data of segment 0, the words of a line, and the output. Where segment 0 is what the changes begin from, it is set to
/// what they lead to; else there are too many of them.
static WIDER: [(&str, &str, &str); 4] = [
    (".data 0 5000 7\n", "run p", "3"),
    ("", "run p", "0"),
    (
        ".data 0 5000 7\n",
        "lines p",
        "end halted\nlines 8 of 65536\nseg 0 h7 #0/10320\nseg 1 h0 0\nseg 2 h7 #1\n#0 n1 0 0 [7,0,0,0] 0\n\
        #1 n1 #2 #7/0000 0 0\n#2 n1 #3 #3 #3 #3\n#3 n4 #4 #4 #4 #4\n#4 n4 #5 #5 #5 #5\n#5 n4 #6 #6 #6 #6\n\
        #6 n4 [1,1,1,1] [1,1,1,1] [1,1,1,1] [1,1,1,1]\n#7 n1 [1,0,0,0] 0 0 0\n",
    ),
    (
        "",
        "lines p",
        "end halted\nlines 7 of 65536\nseg 0 h7 #0\nseg 1 h0 0\nseg 2 h7 #0\n#0 n2 #1 #6/0000 0 0\n\
        #1 n1 #2 #2 #2 #2\n#2 n4 #3 #3 #3 #3\n#3 n4 #4 #4 #4 #4\n#4 n4 #5 #5 #5 #5\n\
        #5 n4 [1,1,1,1] [1,1,1,1] [1,1,1,1] [1,1,1,1]\n#6 n1 [1,0,0,0] 0 0 0\n",
    ),
];

#[test]
fn more_changes_than_a_merge_takes_leave_the_segment(rt: HostRuntime) -> Result<(), Fail> {
    for (data, line, written) in &WIDER {
        let source = wider_merge(rt.alloc(), data)?;
        let written = written.as_bytes();
        check_source(
            &rt,
            rt.alloc(),
            source.as_str(),
            b"",
            line,
            Status::Done,
            written,
            b"",
        )?;
    }
    Ok(())
}
