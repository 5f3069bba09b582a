// Puts numbers and words into a line, behind what it has. Each says how many bytes it takes at most.

ghost use Rattle.std.specs.Prelude.{◌≡◌, ◌+◌, ◌*◌, ◌%◌, ◌<◌, ◌≤◌, ◌^◌, ◌++◌, length, decimal};
ghost use Rattle.arrayvec.specs.ArrayVec.{array_vec_len};
ghost use Rattle.gcode_text.specs.Numbers.{five_of, thousandths_of, hundred_thousandths_of, millionths_of, sign_of, millimetres_of};
ghost use Rattle.gcode_text.specs.Words.{feed_of, feed_if_given, point_of, height_if_given, extrusion_of};

use arrayvec::ArrayVec;
use slice_base::Pt;

/// The bytes of one line; the longest that there can be has 89.
pub type Line = ArrayVec<u8, 160>;

/// The greatest number that fits 64 bits.
const SHORT: u128 = 0xffff_ffff_ffff_ffff;

// A number with a sign, in a struct since contracts then see it as it is.
#[derive(Clone, Copy)]
pub(crate) struct Signed {
    pub(crate) value: i128,
}

pub(crate) fn append(line: &mut Line, bytes: &[u8])
    requires { array_vec_len line.old + length bytes.now ≤ 160 }
    ensures items { line.new.items ≡ line.old.items ++ bytes.now }
    ensures len { array_vec_len line.new ≡ array_vec_len line.old + length bytes.now }
{
    for byte in bytes {
        line.push(*byte);
    }
}

pub(crate) fn append_decimal(line: &mut Line, n: u64)
    requires { array_vec_len line.old + 20 ≤ 160 }
    ensures items { line.new.items ≡ line.old.items ++ decimal n }
    ensures len { array_vec_len line.new ≤ array_vec_len line.old + 20 }
{
    let mut buffer = itoa::Buffer::new();
    append(line, buffer.format(n).as_bytes());
}

fn append_wide_decimal(line: &mut Line, n: u128)
    requires { array_vec_len line.old + 39 ≤ 160 }
    ensures items { line.new.items ≡ line.old.items ++ decimal n }
    ensures len { array_vec_len line.new ≤ array_vec_len line.old + 39 }
{
    let mut buffer = itoa::Buffer::new();
    append(line, buffer.format(n).as_bytes());
}

fn append_thousandths(line: &mut Line, n: u64)
    requires { array_vec_len line.old + 24 ≤ 160 }
    ensures items { line.new.items ≡ line.old.items ++ thousandths_of n }
    ensures len { array_vec_len line.new ≤ array_vec_len line.old + 24 }
{
    append_decimal(line, n / 1000);
    let decimals = [
        b'.',
        b'0' + (n / 100 % 10) as u8,
        b'0' + (n / 10 % 10) as u8,
        b'0' + (n % 10) as u8,
    ];
    append(line, &decimals);
}

// A point and five decimals: the last five digits of the number, which are told.
fn append_five(line: &mut Line, n: u128, last: u32)
    requires room { array_vec_len line.old + 6 ≤ 160 }
    requires last { last ≡ n % 100000 }
    ensures items { line.new.items ≡ line.old.items ++ five_of n }
    ensures len { array_vec_len line.new ≡ array_vec_len line.old + 6 }
{
    let decimals = [
        b'.',
        b'0' + (last / 10_000) as u8,
        b'0' + (last / 1000 % 10) as u8,
        b'0' + (last / 100 % 10) as u8,
        b'0' + (last / 10 % 10) as u8,
        b'0' + (last % 10) as u8,
    ];
    append(line, &decimals);
}

// A division in 64 bits takes a fraction of the time of one in 128.
fn append_hundred_thousandths(line: &mut Line, n: u128)
    requires { array_vec_len line.old + 45 ≤ 160 }
    ensures items { line.new.items ≡ line.old.items ++ hundred_thousandths_of n }
    ensures len { array_vec_len line.new ≤ array_vec_len line.old + 45 }
{
    if n <= SHORT {
        let short = n as u64;
        append_decimal(line, short / 100_000);
        append_five(line, n, (short % 100_000) as u32);
        return;
    }
    append_wide_decimal(line, n / 100_000);
    append_five(line, n, (n % 100_000) as u32);
}

pub(crate) fn append_millionths(line: &mut Line, n: u128)
    requires { array_vec_len line.old + 46 ≤ 160 }
    ensures items { line.new.items ≡ line.old.items ++ millionths_of n }
    ensures len { array_vec_len line.new ≤ array_vec_len line.old + 46 }
{
    append_wide_decimal(line, n / 1_000_000);
    let decimals = [
        b'.',
        b'0' + (n / 100_000 % 10) as u8,
        b'0' + (n / 10_000 % 10) as u8,
        b'0' + (n / 1000 % 10) as u8,
        b'0' + (n / 100 % 10) as u8,
        b'0' + (n / 10 % 10) as u8,
        b'0' + (n % 10) as u8,
    ];
    append(line, &decimals);
}

fn sign(n: Signed) -> &'static [u8]
    ensures sign { result.now ≡ sign_of n.value }
    ensures short { length result.now ≤ 1 }
{
    if n.value < 0 { b"-" } else { b"" }
}

fn append_millimetres(line: &mut Line, microns: i32)
    requires { array_vec_len line.old + 25 ≤ 160 }
    ensures items { line.new.items ≡ line.old.items ++ millimetres_of microns }
    ensures len { array_vec_len line.new ≤ array_vec_len line.old + 25 }
{
    append(
        line,
        sign(Signed {
            value: i128::from(microns),
        }),
    );
    append_thousandths(line, u64::from(microns.unsigned_abs()));
}

pub(crate) fn append_extrusion(line: &mut Line, e: Signed)
    requires { array_vec_len line.old + 48 ≤ 160 }
    ensures items { line.new.items ≡ line.old.items ++ extrusion_of e.value }
    ensures len { array_vec_len line.new ≤ array_vec_len line.old + 48 }
{
    append(line, b" E");
    append(line, sign(e));
    append_hundred_thousandths(line, e.value.unsigned_abs());
}

pub(crate) fn append_feed(line: &mut Line, speed: u32)
    requires { array_vec_len line.old + 26 ≤ 160 }
    ensures items { line.new.items ≡ line.old.items ++ feed_of speed }
    ensures len { array_vec_len line.new ≤ array_vec_len line.old + 26 }
{
    append(line, b" F");
    append_thousandths(line, u64::from(speed) * 60);
}

pub(crate) fn append_feed_if_given(line: &mut Line, speed: Option<u32>)
    requires { array_vec_len line.old + 26 ≤ 160 }
    ensures items { line.new.items ≡ line.old.items ++ feed_if_given speed }
    ensures len { array_vec_len line.new ≤ array_vec_len line.old + 26 }
{
    match speed {
        None => {}
        Some(speed) => append_feed(line, speed),
    }
}

pub(crate) fn append_point(line: &mut Line, p: Pt)
    requires { array_vec_len line.old + 54 ≤ 160 }
    ensures items { line.new.items ≡ line.old.items ++ point_of p }
    ensures len { array_vec_len line.new ≤ array_vec_len line.old + 54 }
{
    append(line, b" X");
    append_millimetres(line, p.x);
    append(line, b" Y");
    append_millimetres(line, p.y);
}

pub(crate) fn append_height_if_given(line: &mut Line, z: Option<i32>)
    requires { array_vec_len line.old + 27 ≤ 160 }
    ensures items { line.new.items ≡ line.old.items ++ height_if_given z }
    ensures len { array_vec_len line.new ≤ array_vec_len line.old + 27 }
{
    match z {
        None => {}
        Some(z) => {
            append(line, b" Z");
            append_millimetres(line, z);
        }
    }
}
