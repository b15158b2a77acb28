// The routine that puts numbers in columns as C functions, for bench/columns: it is compared with plain Rust there, and timed.
#![tactic(auto)]

ghost use Rattle.std.specs.Prelude.{◌<◌};
ghost use Rattle.columns_link.specs.Put.{Put};

// Puts numbers at the start of text, each in so many columns, and answers the bytes; 0 where there is no room for all: it crosses to C.
#[tactic(auto, using(crate::proofs::Cases::inside, crate::proofs::Cases::outside, crate::proofs::Cases::no_room, crate::proofs::Cases::all_put))]
fn put(text: &mut [u8], width: usize, numbers: &[u64]) -> usize
    requires { 0 < width }
    ensures { Put width numbers.now text.old result text.new }
{
    if text.len() / width < numbers.len() {
        return 0;
    }
    columns::put_numbers(text, width, numbers);
    width * numbers.len()
}

#[unsafe(no_mangle)]
pub extern "C" fn columns_put(text: &mut [u8], width: usize, numbers: &[u64]) -> usize
    ensures { Put width numbers.now text.old result text.new }
{
    if width == 0 {
        return 0;
    }
    put(text, width, numbers)
}

// The same with a width that the compiler knows, as in every call of the library and its programs; an export to C has no
// const parameter, so each width has one.
#[unsafe(no_mangle)]
pub extern "C" fn columns_put_4(text: &mut [u8], numbers: &[u64]) -> usize
    ensures { Put 4 numbers.now text.old result text.new }
{
    put(text, 4, numbers)
}

#[unsafe(no_mangle)]
pub extern "C" fn columns_put_12(text: &mut [u8], numbers: &[u64]) -> usize
    ensures { Put 12 numbers.now text.old result text.new }
{
    put(text, 12, numbers)
}

#[unsafe(no_mangle)]
pub extern "C" fn columns_put_21(text: &mut [u8], numbers: &[u64]) -> usize
    ensures { Put 21 numbers.now text.old result text.new }
{
    put(text, 21, numbers)
}
