//! An item of a schedule's text.
ghost use Rattle.std.specs.Prelude.{◌≡◌, ◌≤◌, ◌<◌, ◌^◌, length, position, IfSome};
ghost use Rattle.std.specs.Option.{ForSome};
ghost use Rattle.task_sched.specs.Items.{number, item_from, item_of, is_star};

/// So many entries of one task.
#[derive(Clone, Copy, Debug)]
pub(crate) struct Item {
    pub(crate) task: u8,
    pub(crate) count: u64,
}

/// The item that a piece is: `t*n`, n entries of task t, or `t`, one entry.
pub(crate) fn parse_item(piece: &[u8]) -> Option<Item>
    ensures value { result ≡ item_of piece.now }
    ensures some { IfSome result (λ item. 1 ≤ item.count) }
{
    match first_star(piece) {
        None => make_item(parse_number(piece, 2), Some(1)),
        Some(star) => make_item(
            parse_number(&piece[..star], 2),
            parse_number(&piece[star + 1..], 10),
        ),
    }
}

/// Where the first star stands.
fn first_star(piece: &[u8]) -> Option<usize>
    ensures place { result ≡ position is_star piece.now }
    ensures within { IfSome result (λ star. star < length piece.now) }
{
    piece.iter().position(|byte| *byte == b'*')
}

/// So many entries of this task, where both numbers are in range.
fn make_item(task: Option<u64>, count: Option<u64>) -> Option<Item>
    requires { ForSome task (λ t. t < 10 ^ 2) }
    ensures value { result ≡ item_from task count }
    ensures some { IfSome result (λ item. 1 ≤ item.count) }
{
    let task = task? as u8;
    let count = u32::try_from(count?).ok()?;
    if count == 0 {
        return None;
    }
    let count = u64::from(count);
    Some(Item { task, count })
}

/// The number that these digits write: decimal digits, at least one and no more than `most`.
fn parse_number(digits: &[u8], most: usize) -> Option<u64>
    requires { most ≤ 10 }
    ensures value { result ≡ number most digits.now }
    ensures below { IfSome result (λ value. value < 10 ^ most) }
{
    if digits.is_empty() || digits.len() > most {
        return None;
    }
    let mut value = 0;
    for digit in digits {
        if !digit.is_ascii_digit() {
            return None;
        }
        value = value * 10 + u64::from(*digit - b'0');
    }
    Some(value)
}
