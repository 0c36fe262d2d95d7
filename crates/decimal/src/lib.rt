// Numbers in decimal: how many digits one has, and its digits at the front of a lent area.
// (No `Display`: `write!` promises the bytes only where it returns `Ok`, and the writer here can't fail.)
#![tactic(auto)]

ghost use Rattle.std.specs.Prelude.{◌≡◌, ◌≤◌, length};
ghost use Rattle.base.specs.Lists.{written};
ghost use Rattle.decimal.specs.Decimal.{decimal};

// How many digits `n` has. (`as`: `usize` has no `From<u32>`.)
#[tactic(auto, using(crate::proofs::Laws::count_laws))]
pub fn digit_count(n: u64) -> usize
    ensures { result ≡ length (decimal n) }
{
    1 + n.max(1).ilog10() as usize
}

// `n` in decimal at the front of `out`. (An index, and no `iter_mut().rev()`: of what is written through that a proof knows nothing. `as`, since the
// check proves that a digit fits; `try_from` would answer an error that can't come.)
#[tactic(auto, using(crate::proofs::Laws::write_laws))]
pub fn write_decimal(out: &mut [u8], n: u64)
    requires { length (decimal n) ≤ length out.old }
    ensures { out.new ≡ written (decimal n) out.old }
{
    let mut rest = n;
    for i in (0..digit_count(n)).rev() {
        out[i] = b'0' + (rest % 10) as u8;
        rest /= 10;
    }
}
