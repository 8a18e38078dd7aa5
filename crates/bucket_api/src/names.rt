//! Which texts are names of objects.
ghost use Rattle.std.specs.Prelude.{All, IsTrue, ◌↔◌};
ghost use Rattle.bucket_api.specs.Names.{IsNameByte, IsObjectName};

/// The most bytes that an object's name has, after Cloud Storage's object naming.
pub const MAX_NAME: usize = 1024;

/// Whether the text may name an object: 1 to 1,024 bytes without carriage return and line feed,
/// and neither `.` nor `..`.
pub fn allowed(name: &str) -> bool
    ensures { IsTrue result ↔ IsObjectName name.now }
{
    let fits = !name.is_empty() && name.len() <= MAX_NAME;
    fits && name != "." && name != ".." && has_name_bytes(name.as_bytes())
}

fn has_name_bytes(name: &[u8]) -> bool
    ensures { IsTrue result ↔ All IsNameByte name.now }
{
    name.iter().all(|byte| *byte != b'\r' && *byte != b'\n')
}
