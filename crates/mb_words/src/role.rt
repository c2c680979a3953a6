// What one word is.
ghost use Rattle.std.specs.Prelude.{◌≡◌, option_map};
ghost use Rattle.mb_words.specs.Words.{alone as alone_role, attached as attached_role};
ghost use Rattle.mb_words.specs.Words.{operand_role as plain_role, option_role as role_in, role_of};
ghost use Rattle.mb_words.specs.Words.{role_by as role_of_one, value_behind as value_of_word};
ghost use Rattle.mb_words.specs.Words.{is_option as begins_option, is_value as stands_alone};
ghost use Rattle.mb_words.specs.machine.Scanning.{role_meant, text};

use crate::command::OptionName;

// What a word is where no option waits for its value.
#[derive(Clone, Copy)]
pub enum Role<'a> {
    Marker,
    Flag(OptionName),
    Opener(OptionName),
    Given(OptionName, &'a str),
    Operand(&'a str),
    Wrong,
}

fn is_option(word: &str) -> bool
    ensures { result ≡ begins_option word.now }
{
    word.starts_with("-") && word.len() > 1
}

// Whether the word may be the value of the option before it.
pub fn is_value(word: &str) -> bool
    ensures { result ≡ stands_alone word.now }
{
    !word.is_empty() && !is_option(word)
}

fn alone<'a>(name: OptionName) -> Role<'a>
    ensures { role_meant result ≡ alone_role name }
{
    if name.takes_value() {
        Role::Opener(name)
    } else {
        Role::Flag(name)
    }
}

fn attached<'a>(name: OptionName, value: &'a str) -> Role<'a>
    ensures { role_meant result ≡ attached_role name value.entry.now }
{
    if value.is_empty() || !name.takes_value() {
        Role::Wrong
    } else {
        Role::Given(name, value)
    }
}

fn value_behind<'a>(name: OptionName, word: &'a str) -> Option<&'a str>
    ensures { option_map text result ≡ value_of_word name word.entry.now }
{
    word.strip_prefix(name.opening())
}

fn role_by<'a>(name: OptionName, word: &'a str) -> Option<Role<'a>>
    ensures { option_map role_meant result ≡ role_of_one name word.entry.now }
{
    if word == name.option_word() {
        return Some(alone(name));
    }
    match value_behind(name, word) {
        Some(value) => Some(attached(name, value)),
        None => None,
    }
}

fn option_role<'a>(names: &[OptionName], word: &'a str) -> Role<'a>
    ensures { role_meant result ≡ role_in names.now word.entry.now }
{
    for name in names {
        if let Some(role) = role_by(*name, word) {
            return role;
        }
    }
    Role::Wrong
}

pub fn operand_role<'a>(word: &'a str) -> Role<'a>
    ensures { role_meant result ≡ plain_role word.entry.now }
{
    if word.is_empty() {
        Role::Wrong
    } else {
        Role::Operand(word)
    }
}

pub fn word_role<'a>(names: &[OptionName], word: &'a str) -> Role<'a>
    ensures { role_meant result ≡ role_of names.now word.entry.now }
{
    if word == "--" {
        Role::Marker
    } else if is_option(word) {
        option_role(names, word)
    } else {
        operand_role(word)
    }
}
