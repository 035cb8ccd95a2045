// File names of media, without allocating memory. Equal to `relink::media_name`.
ghost use Rattle.std.specs.Prelude.{◌≡◌, ◌-◌, replicate};
ghost use Rattle.list_terms.specs.Renewed.{media_name};

use arrayvec::ArrayString;
use itoa::Buffer;

fn zeros_before(digits: usize) -> &'static str
    ensures { result.now ≡ replicate (5 - digits) 48 }
{
    match digits {
        0 => "00000",
        1 => "0000",
        2 => "000",
        3 => "00",
        4 => "0",
        _ => "",
    }
}

/// Returns the file name of a medium: `M`, the number with at least five digits, and `.wav`.
pub fn medium_name(number: u64) -> ArrayString<25>
    ensures { result.bytes ≡ media_name number }
{
    let mut buffer = Buffer::new();
    let digits: &str = buffer.format(number);
    let mut name = ArrayString::new();
    name.push_str("M");
    name.push_str(zeros_before(digits.len()));
    name.push_str(digits);
    name.push_str(".wav");
    name
}
