ghost use Rattle.std.specs.Prelude.{◌↔◌, IsTrue};
ghost use Rattle.plain_data.specs.declared.data.Data.{Data};
ghost use Rattle.plain_data.specs.DataLimits.{within_limits};
ghost use Rattle.link_fields.specs.Lawful.{IsLawful};
ghost use Rattle.link_fields.specs.Basic as basic;
ghost use Rattle.link_fields.specs.Origins.{any_host, origin};
ghost use Rattle.link_fields.specs.Skipping.{data_field};
ghost use Rattle.link_fields.specs.Limits.{texts_are_utf8};

/// What is read is spelled so, and what is in range and spelled so is read, whatever stands behind it: so a value has
/// one spelling, and no spelling begins another.
pub fn fields_read_back()
    ensures number { IsLawful basic.u32 }
    ensures truth { IsLawful basic.truth }
    ensures text { IsLawful basic.text }
    ensures url { IsLawful basic.url }
    ensures optional_url { IsLawful (basic.optional basic.url) }
    ensures flags { IsLawful basic.flags }
    ensures host { IsLawful any_host }
    ensures origin { IsLawful origin }
    ensures values { IsLawful data_field }
{}

/// Data fits its field exactly where it is within the limits of plain data, at most 16 deep and 4,096 bytes long, its
/// wholes and texts in range and the keys of each record ascending, and its texts and keys are UTF-8: so the limits of
/// data in a frame and those of data elsewhere are the same.
pub fn data_fits_within_limits()
    ensures limits { (d : Data) → data_field.Fits d ↔ (IsTrue (within_limits d) × IsTrue (texts_are_utf8 d)) }
{}
