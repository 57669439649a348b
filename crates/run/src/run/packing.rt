// Plans in one number.
ghost use Rattle.std.specs.Prelude.{◌≡◌, [], ◌∷◌};
ghost use Rattle.run.specs.Ending.{unpacked};

use job::plan::Plan;

// Eight names and no array: what the bytes of the number are is found of the names.
fn bytes_joined(a: u8, b: u8, c: u8, d: u8, e: u8, f: u8, g: u8, h: u8) -> u64
    ensures { unpacked result ≡ a ∷ b ∷ c ∷ d ∷ e ∷ f ∷ g ∷ h ∷ [] }
{
    u64::from_le_bytes([a, b, c, d, e, f, g, h])
}

// The plan in one number, the setup of head 1 in the least byte.
pub(crate) fn packed(plan: &Plan) -> u64
    ensures { unpacked result ≡ plan.now.setups }
{
    let [a, b, c, d, e, f, g, h] = plan.setups;
    bytes_joined(a, b, c, d, e, f, g, h)
}

// The setups of a packed plan, by head.
pub fn setups(packed: u64) -> [u8; 8]
    ensures { result ≡ unpacked packed }
{
    packed.to_le_bytes()
}
