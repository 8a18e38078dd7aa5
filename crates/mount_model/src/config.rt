//! The settings of a mount.
ghost use Rattle.std.specs.Prelude.{◌≡◌};
ghost use Rattle.mount_model.specs.Configs.{default_config};

/// What a mount is set to. The names and most defaults are after gcsfuse's configuration.
#[derive(Clone, Copy, Debug, PartialEq, Eq)]
pub struct Config {
    /// Whether a directory exists wherever the name of some object begins with its prefix.
    pub implicit_dirs: bool,
    /// For how many seconds a record of an object serves, 0 to 1,000,000,000,000.
    pub stat_lifetime: u64,
    /// For how many seconds a record of a directory serves, 0 to 1,000,000,000,000.
    pub type_lifetime: u64,
    /// How many records are kept at most, 1 to 65,536.
    pub record_capacity: u64,
    /// How many blocks of 65,536 bytes staged contents touch at most, 1 to 1,024.
    pub staging_blocks: u64,
    /// How many blocks of 65,536 bytes kept files take at most, 0 to 1,024.
    pub cache_blocks: u64,
    /// How many keys one page of a listing shows at most, 1 to 1,000.
    pub list_page: u64,
    /// The second at which the mount starts, 0 to 100,000,000,000.
    pub start: u64,
}

impl Config {
    /// What holds where nothing is set.
    pub fn new() -> Config
        ensures { result ≡ default_config }
    {
        Config {
            implicit_dirs: false,
            stat_lifetime: 60,
            type_lifetime: 60,
            record_capacity: 4096,
            staging_blocks: 1024,
            cache_blocks: 1024,
            list_page: 1000,
            start: 0,
        }
    }
}
