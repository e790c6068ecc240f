//! What large programs leave and write.

use super::{Status, hicamp};
use crate::examples::{CHAIN, COUNT_BYTES, LEVELS, LEVELS_TWICE};
use crate::programs::check_source;
use crate::tests::{assembled, check_line, words_of};
use hic_io::MemHost;
use std::alloc::Global;
use std::marker::Brand;
use std::test::Fail;

/// A chain of so many references, which one commit gives up.
fn chain_of(alloc: Global, references: u32) -> Result<String, Fail> {
    let source = format!(in alloc;
        ".seg plain\nli r0 0\nli r5 {references}\nopen i0 r0\nmore:\nroot r1 r0\nstore i0 r1\ncommit r2 i0\naddi r5 r5 -1
jnz r5 more\nli r1 1\nstore i0 r1\ncommit r2 i0\nhalt\n"
    )?;
    Ok(source)
}

/// How many references, the words of a line, the status, the output, and what is told.
type Chain = (u32, &'static str, Status, &'static str, &'static str);

static CHAINS: [Chain; 4] = [
    (
        10_000,
        "lines p",
        Status::Done,
        "end halted\nlines 0 of 65536\nseg 0 h1 [1,0,0,0]\n",
        "",
    ),
    (
        100_000,
        "lines p --capacity 100000",
        Status::Done,
        "end halted\nlines 0 of 100000\nseg 0 h1 [1,0,0,0]\n",
        "",
    ),
    (
        100_000,
        "run p --capacity 99999",
        Status::Trapped,
        "",
        "trap full task 0 pc 5\n",
    ),
    (
        1_048_576,
        "lines p --capacity 1048576 --steps 6000000",
        Status::Done,
        "end halted\nlines 0 of 1048576\nseg 0 h1 [1,0,0,0]\n",
        "",
    ),
];

#[test]
fn a_chain_of_references_leaves_at_once(rt: HostRuntime) -> Result<(), Fail> {
    for (references, line, status, written, told) in &CHAINS {
        let source = chain_of(rt.alloc(), *references)?;
        let (written, told) = (written.as_bytes(), told.as_bytes());
        let source = source.as_str();
        check_source(&rt, rt.alloc(), source, b"", line, *status, written, told)?;
    }
    Ok(())
}

/// A source, the words of a line, and what its listing begins and ends with.
type Listed = (&'static str, &'static str, &'static str, &'static str);

static LISTED: [Listed; 3] = [
    // The segment and the snapshot hold the head, and a register the line behind it.
    (
        CHAIN,
        "lines p --steps 50003",
        "end budget\nlines 10000 of 65536\nseg 0 h1 #0\n#0 n2 &h1#1 0 0 0\n#1 n2 &h1#2 0 0 0\n",
        "\n#9999 n1 &h0 0 0 0\n",
    ),
    (
        LEVELS,
        "lines p --capacity 40",
        "end halted\nlines 40 of 40\nseg 0 h1 #0\n#0 n1 &h1#1 &h1#1 &h1#1 &h1#1\n",
        "\n#39 n4 &h0 &h0 &h0 &h0\n",
    ),
    (
        LEVELS_TWICE,
        "lines p --capacity 40",
        "end halted\nlines 40 of 40\nseg 0 h1 #0\nseg 1 h1 #0\n#0 n2 &h1#1 &h1#1 &h1#1 &h1#1\n",
        "\n#39 n4 &h0 &h0 &h0 &h0\n",
    ),
];

#[test]
fn long_listings_begin_and_end_as_worked(rt: HostRuntime) -> Result<(), Fail> {
    for (source, line, front, back) in &LISTED {
        let maker = assembled(&rt, rt.alloc(), source)?;
        let mut host = MemHost::make(rt.alloc(), 1_000_000)?;
        host.add_file("p", maker.out())?;
        let words = words_of(rt.alloc(), line)?;
        let ended = hicamp::<_, Brand>(rt.alloc(), &words, &mut host);
        assert_eq!(rt; ended.status, Status::Done, "{line}");
        assert!(rt; host.out().starts_with(front.as_bytes()), "{line}");
        assert!(rt; host.out().ends_with(back.as_bytes()), "{line}");
    }
    Ok(())
}

#[test]
fn the_bytes_of_a_long_input_are_counted(rt: HostRuntime) -> Result<(), Fail> {
    let maker = assembled(&rt, rt.alloc(), COUNT_BYTES)?;
    let mut host = MemHost::make(rt.alloc(), 10_000)?;
    let mut poem = Vec::new(rt.alloc());
    for _ in 0..5000 {
        poem.extend_from_slice(b"a rose is a rose is\n")?;
    }
    host.add_file("p", maker.out())?;
    host.add_file("f", &poem)?;
    let line = "run p --input f --steps 2000000";
    let counts =
        b"10 5000\n32 25000\n97 10000\n101 10000\n105 10000\n111 10000\n114 10000\n115 20000\n";
    check_line(&rt, rt.alloc(), &mut host, line, Status::Done, counts, b"")?;
    Ok(())
}
