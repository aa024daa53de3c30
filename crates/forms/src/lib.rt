// The form of a fragment: where its data may stand in the payload.
#![tactic(auto)]

ghost use Rattle.std.specs.Prelude.{◌≡◌};
ghost use Rattle.forms.specs.Form.{good_start_lem, good_fragment_lem};

// Fragment 0 begins the payload; any other has data.
fn good_start(number: u32, offset: u32, len: u32) -> bool
    ensures { result ≡ good_start_lem number offset len }
{
    if number == 0 {
        return offset == 0;
    }
    1 <= len
}

// Of fragment `number` of `count`, with `len` bytes of data from `offset` of a payload of `size` bytes. Offset and length are added in 64 bits, so that
// a huge offset cannot pass.
pub fn good_fragment(size: u32, offset: u32, number: u32, count: u32, len: u32) -> bool
    ensures { result ≡ good_fragment_lem size offset number count len }
{
    if !good_start(number, offset, len) {
        return false;
    }
    let end = offset as usize + len as usize;
    let size = size as usize;
    if size < end {
        return false;
    }
    if number as usize + 1 == count as usize {
        return end == size;
    }
    true
}
