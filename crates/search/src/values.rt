// Partial settings by value.
ghost use Rattle.std.specs.Prelude.{◌≡◌, ◌<◌};
ghost use Rattle.meaning.specs.Clauses.{variable};
ghost use Rattle.meaning.specs.Search.{blank, with_literal};
ghost use Rattle.format.specs.Forms.{literal_of};
ghost use Rattle.search.specs.Forms.{setting_of};

use crate::Setting;
use format::Literal;
use passes::set_true;

impl Setting {
    // The setting in which every variable is unset.
    pub fn none_set() -> Setting
        ensures { setting_of result ≡ blank 512 }
    {
        Setting { values: [0; 513] }
    }

    // The setting with a literal set true.
    pub fn with(mut self, l: Literal) -> Setting
        requires { variable (literal_of l) < 513 }
        ensures { setting_of result ≡ with_literal (setting_of self) (literal_of l) }
    {
        set_true(&mut self.values, l);
        self
    }
}
