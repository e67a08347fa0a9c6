// The settings of a decoding call: how often a block may be visited (L), how many paths may be alive (D), and the limit of the discrepancy (T). They go by value from
// the call to the run. specs/Settings.antt says which are in range, and what their check answers.

#![tactic(auto)]

ghost use Rattle.std.specs.Prelude.{◌≡◌};
ghost use Rattle.settings.specs.Settings.{checked_as};

use codebook::Refusal;

// What a decoding call is to go by. Anyone can make one of any numbers; `checked` tells those that lie in their ranges.
#[derive(Clone, Copy)]
pub struct Settings {
    pub visits: u32,
    pub paths: u32,
    pub limit: u32,
}

impl Settings {
    pub const LEAST_VISITS: u32 = 1;

    pub const MOST_VISITS: u32 = 32;

    pub const LEAST_PATHS: u32 = 2;

    pub const MOST_PATHS: u32 = 256;

    pub const LEAST_LIMIT: u32 = 0;

    pub const MOST_LIMIT: u32 = 1048576;

    // These settings, if each is in its range.
    pub fn checked(self) -> Result<Settings, Refusal>
        ensures { result ≡ checked_as self }
    {
        if self.visits < Settings::LEAST_VISITS || Settings::MOST_VISITS < self.visits {
            return Err(Refusal::BadSetting);
        }
        if self.paths < Settings::LEAST_PATHS || Settings::MOST_PATHS < self.paths {
            return Err(Refusal::BadSetting);
        }
        if self.limit < Settings::LEAST_LIMIT || Settings::MOST_LIMIT < self.limit {
            return Err(Refusal::BadSetting);
        }
        Ok(self)
    }
}
