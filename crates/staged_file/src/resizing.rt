//! Size changes: blocks behind the new end are cut off, and the block in which it lies has zeros behind it.
ghost use Rattle.std.specs.Prelude.{◌≡◌, ℕ, ◌*◌, ◌/◌, ◌<◌, ◌≤◌, List, IsTrue};
ghost use Rattle.staging_spec.specs.Blocks.{is_among};
ghost use Rattle.staging_spec.specs.Staging.{resized};
ghost use Rattle.staged_file.specs.Staged.{IsStaged, staging_of, touched_of, byte_at};
ghost use Rattle.staged_file.specs.Steps.{Leaves, IsStep};

use crate::staged::{BLOCK, Staged};
use block_pool::BlockPool;

impl Staged {
    /// Gives the content another length, at most 16,777,216. Bytes cut off never come back: where it grows again it shows
    /// zeros.
    pub fn set_len(&mut self, pool: &mut BlockPool, len: u64)
        requires staged { IsStaged pool.old.chains self.old }
        requires range { len ≤ 16777216 }
        ensures ok { (source : List ℕ) → staging_of pool.new.chains self.new source ≡ resized (staging_of pool.old.chains self.old source) len }
        ensures staged { IsStaged pool.new.chains self.new }
        ensures kept { Leaves pool.old self.old pool.new self.new }
    {
        if len >= self.len() {
            self.reach(len);
            return;
        }
        self.cut(pool, len);
        self.clear_end(pool, len);
        self.shorten(len);
    }

    /// Makes the bytes behind a length zeros in the block in which it lies, where that is touched. All touched blocks begin
    /// below the length.
    fn clear_end(&mut self, pool: &mut BlockPool, len: u64)
        requires staged { IsStaged pool.old.chains self.old }
        requires inside { (block : ℕ) → IsTrue (is_among (touched_of pool.old.chains self.old) block) → block * 65536 < len }
        ensures step { IsStep pool.old self.old pool.new self.new }
        ensures touched { touched_of pool.new.chains self.new ≡ touched_of pool.old.chains self.old }
        ensures kept { (source : List ℕ) (i : ℕ) → i < len → byte_at pool.new.chains self.new source i ≡ byte_at pool.old.chains self.old source i }
        ensures zeros { (source : List ℕ) (i : ℕ) → len ≤ i → IsTrue (is_among (touched_of pool.old.chains self.old) (i / 65536)) → byte_at pool.new.chains self.new source i ≡ 0 }
    {
        if len % BLOCK == 0 {
            return;
        }
        if !self.holds(pool, len / BLOCK) {
            return;
        }
        self.clear_from(pool, len);
    }
}
