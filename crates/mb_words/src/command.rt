// The commands and their options.
ghost use Rattle.std.specs.Prelude.{◌≡◌, map};
ghost use Rattle.mb_words.specs.Words.{command_of, options_of, option_word, opening};
ghost use Rattle.mb_words.specs.Words.{takes_value as value_taken};
ghost use Rattle.mb_words.specs.machine.Matching.{name_of, fewest as least, most, label, has_option, takes_operands};

#[derive(Clone, Copy, Debug, PartialEq, Eq)]
pub enum Command {
    Run,
    Shared,
    Check,
    Load,
    Sides,
}

#[derive(Clone, Copy, Debug, PartialEq, Eq)]
pub enum OptionName {
    Policy,
    Schedule,
    Budget,
    Trace,
}

impl Command {
    pub fn of_word(word: &str) -> Option<Command>
        ensures { result ≡ command_of word.now }
    {
        if word == "run" {
            Some(Command::Run)
        } else if word == "shared" {
            Some(Command::Shared)
        } else if word == "check" {
            Some(Command::Check)
        } else if word == "load" {
            Some(Command::Load)
        } else if word == "sides" {
            Some(Command::Sides)
        } else {
            None
        }
    }

    pub fn name<'a>(self) -> &'a str
        ensures { result.now ≡ name_of self }
    {
        match self {
            Command::Run => "run",
            Command::Shared => "shared",
            Command::Check => "check",
            Command::Load => "load",
            Command::Sides => "sides",
        }
    }

    pub fn options(self) -> &'static [OptionName]
        ensures { result.now ≡ options_of self }
    {
        match self {
            Command::Run | Command::Sides => &[
                OptionName::Policy,
                OptionName::Schedule,
                OptionName::Budget,
                OptionName::Trace,
            ],
            Command::Shared => &[OptionName::Schedule, OptionName::Budget, OptionName::Trace],
            Command::Check | Command::Load => &[],
        }
    }

    pub fn has(self, name: OptionName) -> bool
        ensures { result ≡ has_option self name }
    {
        match self {
            Command::Run | Command::Sides => true,
            Command::Shared => !matches!(name, OptionName::Policy),
            Command::Check | Command::Load => false,
        }
    }

    pub fn takes(self, operands: &[&str]) -> bool
        ensures { result ≡ takes_operands self (map (λ s. s.now) operands.now) }
    {
        self.fewest() <= operands.len() && operands.len() <= self.most()
    }

    // How many operands there are, at least and at most.
    pub fn fewest(self) -> usize
        ensures { result ≡ least self }
    {
        match self {
            Command::Check => 1,
            _ => 2,
        }
    }

    pub fn most(self) -> usize
        ensures { result ≡ most self }
    {
        match self {
            Command::Check => 1,
            Command::Sides => 8,
            _ => 2,
        }
    }
}

impl OptionName {
    // The name as `clap` has it, without hyphens.
    pub fn label<'a>(self) -> &'a str
        ensures { result.now ≡ label self }
    {
        match self {
            OptionName::Policy => "policy",
            OptionName::Schedule => "schedule",
            OptionName::Budget => "budget",
            OptionName::Trace => "trace",
        }
    }

    pub fn option_word(self) -> &'static str
        ensures { result.now ≡ option_word self }
    {
        match self {
            OptionName::Policy => "--policy",
            OptionName::Schedule => "--schedule",
            OptionName::Budget => "--budget",
            OptionName::Trace => "--trace",
        }
    }

    // What stands before a value in one word with it.
    pub fn opening(self) -> &'static str
        ensures { result.now ≡ opening self }
    {
        match self {
            OptionName::Policy => "--policy=",
            OptionName::Schedule => "--schedule=",
            OptionName::Budget => "--budget=",
            OptionName::Trace => "--trace=",
        }
    }

    pub fn takes_value(self) -> bool
        ensures { result ≡ value_taken self }
    {
        !matches!(self, OptionName::Trace)
    }
}
