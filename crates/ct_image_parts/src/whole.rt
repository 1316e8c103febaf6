//! The parts of an image: made of its fields, and written in their one spelling (docs/use/image.md;
//! definitions in def_image's Parts and Spelling).

ghost use Rattle.ct_image_parts.specs.Back.{FieldsComeBack};

/// Fields whose limits and forms hold are those of the parts that `parts_of` makes of them, and
/// these have a spelling.
pub fn fields_come_back()
    ensures { FieldsComeBack }
{}
