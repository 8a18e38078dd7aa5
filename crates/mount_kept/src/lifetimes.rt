//! How long a record of a key serves.
ghost use Rattle.std.specs.Prelude.{◌≡◌};
ghost use Rattle.bucket_api.specs.Listing.{ends_in_slash};
ghost use Rattle.history_spec.specs.Pasts.{lifetime_of};

use mount_model::Config;

/// For how many seconds a record of a key serves: a key that ends in a slash is a directory's.
pub(crate) fn lifetime_of(config: &Config, key: &str) -> u64
    ensures { result ≡ lifetime_of config.now key.now }
{
    if ends_in_slash(key.as_bytes()) {
        config.type_lifetime
    } else {
        config.stat_lifetime
    }
}

/// Whether a text ends in a slash.
pub(crate) fn ends_in_slash(text: &[u8]) -> bool
    ensures { result ≡ ends_in_slash text.now }
{
    !text.is_empty() && text[text.len() - 1] == b'/'
}
