//! Names in their fields.

ghost use Rattle.std.specs.Prelude.{◌≡◌, ◌≤◌, length};
ghost use Rattle.def_image.specs.Limits as spec;

/// The name in a field: what stands before the first zero.
pub fn name_of(field: &[u8]) -> &[u8]
    ensures name { result.now ≡ spec.name_in_field field.now }
    ensures short { length result.now ≤ length field.now }
{
    for (index, byte) in field.iter().enumerate() {
        if *byte == 0 {
            return &field[..index];
        }
    }
    field
}
