// Critical buffers belong to the getting thread, the others to no thread.
ghost use Rattle.std.specs.Prelude.{◌≡◌};
ghost use Rattle.words.specs.Choice.{if_true◌then◌else◌};
ghost use Rattle.facts.specs.Table.{is_critical};

// The thread in the row of a buffer of family k that thread t gets.
pub fn pin_owner(t: u32, k: u32) -> u32
    ensures { result ≡ (if_true is_critical k then t else 0) }
{
    if facts::is_critical(k) { t } else { 0 }
}
