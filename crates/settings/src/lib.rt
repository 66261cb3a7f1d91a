// What a caller chooses, handed down by value to whatever works a run; and refusal 16, of that choice.
#![tactic(auto)]

ghost use Rattle.std.specs.Prelude.{◌≡◌};
ghost use Rattle.settings.specs.Settings.{penalty_of, grid_of, crate_settings, settings_fine, judged_for};

use breaks::Grid;
use refusals::Refusal;

#[derive(Clone, Copy)]
pub struct Settings {
    // of a piece, in sixteenths
    pub penalty: u32,
    // breaks are rounded to whole units, and not to half units
    pub whole_units: bool,
    // the contour is closed by a run from its last corner to its first
    pub closed: bool,
}

// Document 01's penalty, 1.0: the Rust's own.
pub const CRATE_PENALTY: u32 = 16;

// What a caller who says nothing gets, 2.0.
pub const DEFAULT_PENALTY: u32 = 32;

impl Settings {
    // The crate's own, with which the points out equal the Rust's.
    pub fn of_crate() -> Settings
        ensures { result ≡ crate_settings }
    {
        Settings {
            penalty: CRATE_PENALTY,
            whole_units: false,
            closed: false,
        }
    }

    // The penalty as the scores take it.
    pub fn per_piece(self) -> f64
        ensures { result ≡ penalty_of self }
    {
        self.penalty as f64 / 16.0
    }

    // What the breaks are rounded to.
    pub fn grid(self) -> Grid
        ensures { result ≡ grid_of self }
    {
        if self.whole_units {
            return Grid::whole();
        }
        Grid::half()
    }

    // Whether refusal 16 is not given.
    pub fn is_fine(self) -> bool
        ensures { result ≡ settings_fine self }
    {
        (0 < self.penalty) & (self.penalty <= 256)
    }

    // Refusals 1 to 5 of the rows first, whatever was chosen, then 16.
    pub fn judge(self, xs: &[i16], ys: &[i16], flags: &[u8]) -> Result<(), Refusal>
        ensures { result ≡ judged_for self xs.now ys.now flags.now }
    {
        refusals::judge(xs, ys, flags)?;
        if self.is_fine() {
            return Ok(());
        }
        Err(Refusal::NoSuchPenalty)
    }
}
