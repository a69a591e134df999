//! What the types of bytes say.

ghost use Rattle.std.specs.Prelude.{◌<◌};
ghost use Rattle.std.specs.List.{All};
ghost use Rattle.laws_of_saving.specs.Good.{IsDigest};

// What the type of bytes says.
fn are_bytes(bytes: &[u8])
    ensures { All (λ byte. byte < 256) bytes.now }
{}

/// What the type of a digest says: it has 32 bytes.
pub fn a_digest_has_its_bytes(digest: [u8; 32])
    ensures { IsDigest digest }
{
    are_bytes(&digest);
}
