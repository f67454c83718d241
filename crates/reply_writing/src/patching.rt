ghost use Rattle.std.specs.Prelude.{◌≡◌, ◌≤◌, ◌+◌, ◌∷◌, [], length};
ghost use Rattle.link_fields.specs.Basic.{truth};
ghost use Rattle.reply_writing.specs.Patched.{Patches};
ghost use Rattle.reply_writing.specs.Writing.{Finishes};

// Writes the length, the byte that says whether there is more, and the count over the zeros.
pub(crate) fn fill_in(bytes: &mut [u8], more_at: usize, count: u32, cut: bool)
    requires place { 10 ≤ more_at }
    requires room { more_at + 5 ≤ length bytes.old }
    requires short { length bytes.old ≤ 65542 }
    ensures frame { Finishes more_at count cut bytes.old bytes.new }
    ensures len { length bytes.new ≡ length bytes.old }
{
    let len = (bytes.len() - 6) as u32;
    patch(bytes, 2, &len.to_be_bytes());
    patch(bytes, more_at, &[truth_byte(cut)]);
    patch(bytes, more_at + 1, &count.to_be_bytes());
}

#[tactic(auto, unfolding(link_fields::specs::Basic::number_bytes))]
fn truth_byte(cut: bool) -> u8
    ensures { result ∷ [] ≡ truth.spell cut }
{
    if cut { 1 } else { 0 }
}

// Writes over the bytes that stand at a place.
fn patch(bytes: &mut [u8], place: usize, new: &[u8])
    requires { place + length new.now ≤ length bytes.old }
    ensures patched { Patches place new.now bytes.old bytes.new }
    ensures len { length bytes.new ≡ length bytes.old }
{
    bytes[place..place + new.len()].copy_from_slice(new);
}
