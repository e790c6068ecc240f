//! The schedule.
ghost use Rattle.std.specs.Prelude.{◌≡◌, ◌≤◌, ◌++◌, OnOk, IfOk};
ghost use Rattle.std.specs.Fmt.{decimal};
ghost use Rattle.hic_gen.specs.Demo.{most_size, item_line, demo_schedule};

use crate::draws::Generator;
use itoa::Buffer;
use std::alloc::{AllocError, Global};

/// The text of a schedule of `size` items, 1 to 4,096, drawn from the seed: each is one of four tasks, 1 to 16 times.
pub fn demo_schedule(alloc: Global, seed: u64, size: u32) -> Result<Vec<u8>, AllocError>
    requires some { 1 ≤ size }
    requires most { size ≤ most_size }
    ensures { IfOk result (λ text. text.items ≡ demo_schedule seed size) }
{
    let mut generator = Generator { state: seed };
    let mut text = Vec::new(alloc);
    for _item in 0..size {
        put_item(&mut text, generator.draw())?;
    }
    Ok(text)
}

/// The item of a draw, and a line feed.
fn put_item(text: &mut Vec<u8>, drawn: u32) -> Result<(), AllocError>
    ensures { OnOk result (text.new.items ≡ text.old.items ++ item_line drawn) }
{
    put_number(text, drawn % 4)?;
    text.push(b'*')?;
    put_number(text, 1 + drawn / 4 % 16)?;
    text.push(b'\n')?;
    Ok(())
}

/// A number in decimal.
fn put_number(text: &mut Vec<u8>, number: u32) -> Result<(), AllocError>
    ensures { OnOk result (text.new.items ≡ text.old.items ++ decimal number) }
{
    let mut buffer = Buffer::new();
    text.extend_from_slice(buffer.format(number).as_bytes())
}
