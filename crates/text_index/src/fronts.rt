//! The fronts of serial numbers: what is left when last bits are cut off.

ghost use Rattle.text_index.specs.Fronts.{IsCommonFront};

// The front that two serial numbers have when as many last bits are cut off as differ. Each serial
// number between them has it too.
pub(crate) fn common_front(first: u64, last: u64) -> u64
    ensures { IsCommonFront first last result }
{
    let mut lo = first;
    let mut hi = last;
    'cutting: while lo != hi {
        lo /= 2;
        hi /= 2;
    }
    lo
}
