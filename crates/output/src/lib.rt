// Writes bytes into a lent list from a place on. Each function answers the place after what it wrote.
// The list and the place are two parameters: C lends the list, and `Appended` and `Printed` speak of each by itself.
#![tactic(auto)]

ghost use Rattle.std.specs.Prelude.{◌+◌, ◌<◌, ◌^◌, [], ◌∷◌, ◌++◌, length};
ghost use Rattle.model.specs.Image.{u32_bytes};
ghost use Rattle.model.specs.Tables.{digits, refusal_printed};
ghost use Rattle.output.specs.Append.{Printed, Appended};

// Writes a byte, or nothing past the end.
pub fn put_byte(out: &mut [u8], at: usize, byte: u8) -> usize
    requires { at + 1 < 2 ^ 64 }
    ensures { Appended (byte ∷ []) out.old at result out.new }
{
    if at < out.len() {
        out[at] = byte;
    }
    at + 1
}

// Writes a u32, its lowest byte first.
pub fn put_u32(out: &mut [u8], at: usize, number: u32) -> usize
    requires { at + 4 < 2 ^ 64 }
    ensures { Appended (u32_bytes number) out.old at result out.new }
{
    let bytes = number.to_le_bytes();
    put_bytes(out, at, &bytes)
}

// Writes two of them.
pub fn put_pair(out: &mut [u8], at: usize, first: u32, second: u32) -> usize
    requires { at + 8 < 2 ^ 64 }
    ensures { Appended (u32_bytes first ++ u32_bytes second) out.old at result out.new }
{
    let at = put_u32(out, at, first);
    put_u32(out, at, second)
}

// Writes bytes in their order.
pub fn put_bytes(out: &mut [u8], at: usize, bytes: &[u8]) -> usize
    requires { at + length bytes.now < 2 ^ 64 }
    ensures { Appended bytes.now out.old at result out.new }
{
    let mut end = at;
    for byte in bytes {
        end = put_byte(out, end, *byte);
    }
    end
}

// Writes a number in decimal digits, of which there are at most `most`: by hand, since `format!` takes memory from an allocator.
pub fn put_digits(out: &mut [u8], at: usize, most: u32, number: u32) -> usize
    requires { at + most < 2 ^ 64 }
    ensures { Appended (digits most number) out.old at result out.new }
{
    if most == 0 {
        return at;
    }
    if number < 10 {
        return put_byte(out, at, 48 + number as u8);
    }
    let at = put_digits(out, at, most - 1, number / 10);
    put_byte(out, at, 48 + (number % 10) as u8)
}

// Writes what `tables` prints for a refused text, and answers how many bytes that is.
pub fn write_refusal(number: u32, line: u32, out: &mut [u8]) -> usize
    ensures { Printed (refusal_printed number line) out.old result out.new }
{
    let at = put_bytes(out, 0, b"refused ");
    let at = put_digits(out, at, 10, number);
    let at = put_byte(out, at, b' ');
    let at = put_digits(out, at, 10, line);
    put_byte(out, at, b'\n')
}
