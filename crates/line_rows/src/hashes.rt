//! Hashes and buckets at values that a program in another language worked out, and remainders by the reciprocal.
ghost use Rattle.std.specs.Prelude.{◌≤◌};

use hic_word::{Kind, Line, WIDTH, Word, num};
use line_hash::{Divisor, bucket_of, hash_line};
use std::process::Abort;

fn word(kind: Kind, height: u8, bits: u64) -> Word {
    Word { kind, height, bits }
}

fn numbers(w: [u64; 4]) -> Line<WIDTH> {
    Line {
        w: [num(w[0]), num(w[1]), num(w[2]), num(w[3])],
    }
}

fn each_kind() -> Line<WIDTH> {
    Line {
        w: [
            word(Kind::Node, 0, 576_460_752_353_755_143),
            word(Kind::Pack, 0, 65_535),
            word(Kind::RefNode, 16, 9),
            word(Kind::RefPack, 1, u64::MAX),
        ],
    }
}

#[test]
fn hashes_and_buckets_are_those_of_the_format(rt: HostRuntime) {
    for (line, hash, of_8192, of_1000003) in [
        (numbers([0, 0, 0, 0]), 0, 0, 0),
        (numbers([1, 0, 0, 0]), 0xCF2C_F664_084D_C04C, 76, 861_171),
        (numbers([1, 2, 3, 4]), 0x7838_EDA3_D874_A445, 1_093, 576_643),
        (each_kind(), 0x4F64_2D42_48DF_F98E, 6_542, 20_393),
    ] {
        assert_eq!(rt; hash_line(&line), hash);
        assert_eq!(rt; bucket_of(&line, 1), 0);
        assert_eq!(rt; bucket_of(&line, 8_192), of_8192);
        assert_eq!(rt; bucket_of(&line, 1_000_003), of_1000003);
    }
}

fn check_remainders(number: u32, rt: &impl Abort)
    requires { 1 ≤ number }
{
    let divisor = Divisor::make(number);
    for n in [0, 1, 76, 0xCF2C_F664_084D_C04C, u64::MAX - 1, u64::MAX] {
        assert_eq!(rt; divisor.remainder(n), n % u64::from(number));
    }
}

#[test]
fn remainders_are_those_of_a_division(rt: HostRuntime) {
    for number in [1, 2, 3, 8_192, 131_072, 1_000_003, u32::MAX] {
        check_remainders(number, &rt);
    }
}
