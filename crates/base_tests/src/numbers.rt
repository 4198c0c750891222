//! Numbers of stated width and bits in bytes: vectors worked out with Python's whole numbers, which have no width.
//! Each table has a row a line, of numbers in hexadecimal.

ghost use Rattle.std.specs.Prelude.{◌≡◌, ◌≤◌};

use bit_values::{Bits, put_bits, take_bits};
use std::test::Fail;

/// A number from a table, whose widths are 1 to 128.
fn bits(width: u8, value: u128) -> Bits
    requires wide { 1 ≤ width }
    requires narrow { width ≤ 128 }
    ensures { result.width ≡ width }
{
    Bits::new(128, value).cast(width)
}

/// Whether these are the width and the value.
fn is(b: Bits, width: u8, value: u128) -> bool {
    b.width == width && b.value == value
}

/// The numbers of a row, and 0 for each that it lacks.
fn numbers(row: &str) -> Result<[u128; 10], Fail> {
    let mut all = [0; 10];
    for (place, word) in all.iter_mut().zip(row.split(' ')) {
        match u128::from_str_radix(word, 16) {
            Ok(number) => *place = number,
            Err(_) => return Err(Fail::new("a row has a word that is no number")),
        }
    }
    Ok(all)
}

// width, a, b; their sum, difference and product; their digits in both, in either, in one; a inverted
const OPERATORS: &str = "\
1 1 1 0 0 1 1 1 0 0
1 0 1 1 1 0 0 1 1 1
7 7f 7f 7e 0 1 7f 7f 0 0
7 0 7f 7f 1 0 0 7f 7f 7f
7 4d 25 72 28 21 5 6d 68 32
8 ff ff fe 0 1 ff ff 0 0
8 0 ff ff 1 0 0 ff ff ff
8 55 91 e6 c4 25 11 d5 c4 aa
9 1ff 1ff 1fe 0 1 1ff 1ff 0 0
9 0 1ff 1ff 1 0 0 1ff 1ff 1ff
9 193 f2 85 a1 f6 92 1f3 161 6c
40 ffffffffffffffff ffffffffffffffff fffffffffffffffe 0 1 ffffffffffffffff ffffffffffffffff 0 0
40 8a734d03343a2c9f a694e1f77d791a3c 31082efab1b346db e3de6b0bb6c11263 8b2143bfe0519b44 821041033438081c aef7edf77d7b3ebf 2ce7acf4494336a3 758cb2fccbc5d360
7f 7fffffffffffffffffffffffffffffff 7fffffffffffffffffffffffffffffff 7ffffffffffffffffffffffffffffffe 0 1 7fffffffffffffffffffffffffffffff 7fffffffffffffffffffffffffffffff 0 0
7f 53d000c5e973d4d0d37e67494087c813 621b50c7ac39e5f4e2a22af7b42f9784 35eb518d95adbac5b6209240f4b75f97 71b4affe3d39eedbf0dc3c518c58308f 50557df9b425af2dffc6f0c574835ecc 421000c5a831c4d0c222224100078000 73db50c7ed7bf5f4f3fe6ffff4afdf97 31cb5002454a312431dc4dbef4a85f97 2c2fff3a168c2b2f2c8198b6bf7837ec
80 ffffffffffffffffffffffffffffffff ffffffffffffffffffffffffffffffff fffffffffffffffffffffffffffffffe 0 1 ffffffffffffffffffffffffffffffff ffffffffffffffffffffffffffffffff 0 0
80 f19f921254ffcaa8470b02aa38113ebc 8311b3b03e98c4f640e1ec969f1c9935 74b145c293988f9e87ecef40d72dd7f1 6e8dde62166705b20629161398f4a587 7f85e0eb05d6e14307c32c18aa058ec 811192101498c0a04001008218101834 f39fb3b27effcefe47ebeebebf1dbfbd 728e21a26a670e5e07eaee3ca70da789 e606dedab003557b8f4fd55c7eec143";

// width, value, by; the value shifted to the left, and to the right
const SHIFTS: &str = "\
1 1 0 1 1
1 1 1 0 0
1 1 2 0 0
1 1 ffffffffffffffffffffffffffffffff 0 0
7 51 6 40 1
7 51 7 0 0
7 51 8 0 0
7 51 ffffffffffffffffffffffffffffffff 0 0
8 b9 7 80 1
8 b9 8 0 0
8 b9 9 0 0
8 b9 ffffffffffffffffffffffffffffffff 0 0
9 1f3 8 100 1
9 1f3 9 0 0
9 1f3 a 0 0
9 1f3 ffffffffffffffffffffffffffffffff 0 0
40 83bdc177881a7f0d 3f 8000000000000000 1
40 83bdc177881a7f0d 40 0 0
40 83bdc177881a7f0d 41 0 0
40 83bdc177881a7f0d ffffffffffffffffffffffffffffffff 0 0
7f 6c28ded64be3e2e9b2372ff6cb41206b 7e 40000000000000000000000000000000 1
7f 6c28ded64be3e2e9b2372ff6cb41206b 7f 0 0
7f 6c28ded64be3e2e9b2372ff6cb41206b 80 0 0
7f 6c28ded64be3e2e9b2372ff6cb41206b ffffffffffffffffffffffffffffffff 0 0
80 dd9ee69fe0add80d3a33269c6d27c91f 7f 80000000000000000000000000000000 1
80 dd9ee69fe0add80d3a33269c6d27c91f 80 0 0
80 dd9ee69fe0add80d3a33269c6d27c91f 81 0 0
80 dd9ee69fe0add80d3a33269c6d27c91f ffffffffffffffffffffffffffffffff 0 0";

// width, value, high, low; the slice
const SLICES: &str = "\
1 1 0 0 1
7 59 0 0 1
7 59 2 0 1
7 59 6 0 59
7 59 6 3 b
7 59 6 6 1
8 a7 0 0 1
8 a7 3 0 7
8 a7 7 0 a7
8 a7 7 4 a
8 a7 7 7 1
9 129 0 0 1
9 129 3 0 9
9 129 8 0 129
9 129 8 4 12
9 129 8 8 1
40 c95a38d09ce6b81b 0 0 1
40 c95a38d09ce6b81b 1f 0 9ce6b81b
40 c95a38d09ce6b81b 3f 0 c95a38d09ce6b81b
40 c95a38d09ce6b81b 3f 20 c95a38d0
40 c95a38d09ce6b81b 3f 3f 1
7f 4492c95313f59003926ff1aa38f4d307 0 0 1
7f 4492c95313f59003926ff1aa38f4d307 3e 0 126ff1aa38f4d307
7f 4492c95313f59003926ff1aa38f4d307 7e 0 4492c95313f59003926ff1aa38f4d307
7f 4492c95313f59003926ff1aa38f4d307 7e 3f 892592a627eb2007
7f 4492c95313f59003926ff1aa38f4d307 7e 7e 1
80 97a56edadeb2e4db4497120cf67449f7 0 0 1
80 97a56edadeb2e4db4497120cf67449f7 3f 0 4497120cf67449f7
80 97a56edadeb2e4db4497120cf67449f7 7f 0 97a56edadeb2e4db4497120cf67449f7
80 97a56edadeb2e4db4497120cf67449f7 7f 40 97a56edadeb2e4db
80 97a56edadeb2e4db4497120cf67449f7 7f 7f 1";

// width and value of two numbers; the second behind the first
const JOINED: &str = "\
1 1 1 1 3
1 1 7 10 90
7 4c 1 1 99
8 90 9 1aa 121aa
40 aa55d3c01976b3cb 40 5d1079d4afd813a7 aa55d3c01976b3cb5d1079d4afd813a7
1 1 7f 2f3c2011f9be2e41e306b57a7e14d344 af3c2011f9be2e41e306b57a7e14d344
7f 4930177ecea534dfe5dfd53485018328 1 0 92602efd9d4a69bfcbbfaa690a030650
9 1eb 40 8224b969f8321943 1eb8224b969f8321943";

// width and value; another width, and the value in it
const CASTS: &str = "\
1 1 80 1
80 8590ca6fd2970f1826002f7a169aef13 1 1
8 f1 7 71
9 193 8 93
7 45 9 45
80 a3a59c5f4f14ac768eef1a458a852b07 7f 23a59c5f4f14ac768eef1a458a852b07
7f 6e4512edc2cb468e844afc608f34bbc4 80 6e4512edc2cb468e844afc608f34bbc4
40 99615c619201d8d5 40 99615c619201d8d5
80 a1aa7f882638647c0bc759d022cbe1a0 40 bc759d022cbe1a0";

// sixteen bytes, written as one number, the first byte highest
const SIXTEEN: u128 = 0xe02faa73ac9d54bef96fa7df1ca61bf0;

// a place and a width; the number that stands there in the sixteen bytes
const READS: &str = "\
0 9 1c0
0 40 e02faa73ac9d54be
9 9 be
9 40 5f54e7593aa97df2
1a 9 19d
1a 40 ceb27552fbe5be9f
23 9 c9
23 40 64eaa5f7cb7d3ef8
4 9 5
4 40 2faa73ac9d54bef
25 9 127
25 40 93aa97df2df4fbe3
1e 9 1d6
1e 40 eb27552fbe5be9f7
1f 9 1ac
1f 40 d64eaa5f7cb7d3ef
0 1 1
7f 1 0
79 7 70
3 8 1
0 7f 7017d539d64eaa5f7cb7d3ef8e530df8
1 7f 602faa73ac9d54bef96fa7df1ca61bf0
0 80 e02faa73ac9d54bef96fa7df1ca61bf0";

// a place, a width and a number; sixteen bytes as one number, and once the number is put there
const WRITES: &str = "\
8 9 45 0 228000000000000000000000000000
38 9 1d9 ffffffffffffffffffffffffffffffff ffffffffffffffecffffffffffffffff
69 9 aa 0 2a8000
29 9 122 ffffffffffffffffffffffffffffffff ffffffffffc8bfffffffffffffffffff
5a 9 168 0 2d00000000
5a 9 a4 ffffffffffffffffffffffffffffffff ffffffffffffffffffffffd49fffffff
63 9 5 0 500000
5b 9 92 ffffffffffffffffffffffffffffffff ffffffffffffffffffffffe92fffffff
4 9 25 0 1280000000000000000000000000000
3c 9 17 ffffffffffffffffffffffffffffffff fffffffffffffff0bfffffffffffffff
35 9 11d 0 4740000000000000000
35 9 1ba ffffffffffffffffffffffffffffffff fffffffffffffeebffffffffffffffff
3e 9 e4 0 1c800000000000000
46 9 11a ffffffffffffffffffffffffffffffff fffffffffffffffffe35ffffffffffff
f 9 19d 0 19d00000000000000000000000000
3f 9 2b ffffffffffffffffffffffffffffffff fffffffffffffffe2bffffffffffffff
0 1 1 0 80000000000000000000000000000000
7f 1 1 0 1
3c 1 0 ffffffffffffffffffffffffffffffff fffffffffffffff7ffffffffffffffff
79 7 77 ffffffffffffffffffffffffffffffff fffffffffffffffffffffffffffffff7
4 8 0 0 0
3f 40 345d2907aab6bc29 0 68ba520f556d7852
40 40 8a44f09ad874cc03 ffffffffffffffffffffffffffffffff ffffffffffffffff8a44f09ad874cc03
0 7f eebf19f1fefa4a3f22b40039467a804 ffffffffffffffffffffffffffffffff 1dd7e33e3fdf4947e456800728cf5009
1 7f 335ae9b78da87d76617d00a572cfdedf 0 335ae9b78da87d76617d00a572cfdedf
0 80 153e6f9f2485676aeea915bf94c65df1 ffffffffffffffffffffffffffffffff 153e6f9f2485676aeea915bf94c65df1";

#[test]
fn operators(rt: HostRuntime) -> Result<(), Fail> {
    for row in OPERATORS.lines() {
        let [
            width,
            a,
            b,
            sum,
            difference,
            product,
            both,
            either,
            one,
            inverted,
        ] = numbers(row)?;
        assert!(rt; 1 <= width && width <= 128);
        let width = width as u8;
        let (a, b) = (bits(width, a), bits(width, b));
        let is_right = is(a.add(b), width, sum)
            && is(a.sub(b), width, difference)
            && is(a.mul(b), width, product)
            && is(a.bit_and(b), width, both)
            && is(a.bit_or(b), width, either)
            && is(a.bit_xor(b), width, one)
            && is(a.invert(), width, inverted);
        assert!(rt; is_right, "{row}");
    }
    Ok(())
}

#[test]
fn shifts(rt: HostRuntime) -> Result<(), Fail> {
    for row in SHIFTS.lines() {
        let [width, value, by, left, right, ..] = numbers(row)?;
        assert!(rt; 1 <= width && width <= 128);
        let width = width as u8;
        let value = bits(width, value);
        assert!(rt;
            is(value.shl(by), width, left) && is(value.shr(by), width, right),
            "{row}"
        );
    }
    Ok(())
}

#[test]
fn slices(rt: HostRuntime) -> Result<(), Fail> {
    for row in SLICES.lines() {
        let [width, value, high, low, slice, ..] = numbers(row)?;
        assert!(rt; width <= 128 && low <= high && high < width);
        let (high, low) = (high as u8, low as u8);
        let found = bits(width as u8, value).slice(high, low);
        assert!(rt; is(found, high - low + 1, slice), "{row}");
    }
    Ok(())
}

#[test]
fn joined_and_cast(rt: HostRuntime) -> Result<(), Fail> {
    for row in JOINED.lines() {
        let [width, value, low_width, low, joined, ..] = numbers(row)?;
        assert!(rt; 1 <= width && width <= 128 && 1 <= low_width && low_width <= 128);
        assert!(rt; width + low_width <= 128);
        let (width, low_width) = (width as u8, low_width as u8);
        let found = bits(width, value).concat(bits(low_width, low));
        assert!(rt; is(found, width + low_width, joined), "{row}");
    }
    for row in CASTS.lines() {
        let [width, value, other, cast, ..] = numbers(row)?;
        assert!(rt; 1 <= width && width <= 128 && 1 <= other && other <= 128);
        let other = other as u8;
        assert!(rt;
            is(bits(width as u8, value).cast(other), other, cast),
            "{row}"
        );
    }
    assert!(rt; is(Bits::default(), 1, 0) && bits(8, 1) != bits(9, 1));
    Ok(())
}

#[test]
fn bits_are_read(rt: HostRuntime) -> Result<(), Fail> {
    let sixteen = SIXTEEN.to_be_bytes();
    for row in READS.lines() {
        let [at, width, value, ..] = numbers(row)?;
        assert!(rt; at <= 128 && width <= 128);
        let (at, width) = (at as usize, width as u8);
        assert!(rt; 1 <= width && at <= 128 - width as usize);
        assert!(rt; is(take_bits(&sixteen, at, width), width, value), "{row}");
    }
    Ok(())
}

#[test]
fn bits_are_put(rt: HostRuntime) -> Result<(), Fail> {
    for row in WRITES.lines() {
        let [at, width, value, before, after, ..] = numbers(row)?;
        assert!(rt; at <= 128 && width <= 128);
        let (at, width) = (at as usize, width as u8);
        assert!(rt; 1 <= width && at <= 128 - width as usize);
        let mut buf = before.to_be_bytes();
        put_bits(&mut buf, at, bits(width, value));
        assert!(rt; buf == after.to_be_bytes(), "{row}");
        assert!(rt; is(take_bits(&buf, at, width), width, value), "{row}");
    }
    Ok(())
}
