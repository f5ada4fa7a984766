ghost use Rattle.std.specs.Prelude.{◌≡◌};
ghost use Rattle.contraction.specs.Operands.{three};
ghost use Rattle.plain.specs.PlainCall.{plain_call};
ghost use Rattle.answers.specs.FlatPlain.{returned, flat};
ghost use Rattle.flat.specs.FlatLayout.{flat_contraction};

use answers::status::status_of;
use flat::contraction_of::contraction_of;
use plain::call::contract;

// The plain engine: D becomes alpha × the sum over the labels that D lacks of A × B + beta × D.
#[unsafe(no_mangle)]
pub extern "C" fn nezgrak_contract(
    a_layout: &[u32; 28],
    a: &[u32],
    b_layout: &[u32; 28],
    b: &[u32],
    d_layout: &[u32; 28],
    d: &mut [u32],
    alpha: u32,
    beta: u32,
) -> u32
    ensures { returned result d.new
        ≡ flat (plain_call
        (flat_contraction a_layout.now b_layout.now d_layout.now alpha beta)
        (three a.now b.now d.old)) }
{
    // C is not named: what stands in its place is not read.
    let k = contraction_of(a_layout, b_layout, d_layout, alpha, beta);
    status_of(contract(k, a, b, a, d))
}
