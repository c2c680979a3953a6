// The kinds of rules by their names in a file.
ghost use Rattle.std.specs.Prelude.{◌≡◌, ◌↔◌, All, IsTrue, true, string_bytes};
ghost use Rattle.std.specs.BTreeMap.{keys};
ghost use Rattle.mb_policy.specs.Policy.{is_top_field as top_field};
ghost use Rattle.mb_policy.specs.Rows.{kind_named, is_common_field, is_side_field, is_kind_field, is_field as field_of};

use toml::Table;

#[derive(Clone, Copy, Debug, PartialEq, Eq)]
pub enum KindName {
    Hide,
    ReadOnly,
    Substitute,
    Revoke,
}

impl KindName {
    pub fn of_word(word: &str) -> Option<KindName>
        ensures { result ≡ kind_named word.now }
    {
        if word == "hide" {
            Some(KindName::Hide)
        } else if word == "read-only" {
            Some(KindName::ReadOnly)
        } else if word == "substitute" {
            Some(KindName::Substitute)
        } else if word == "revoke" {
            Some(KindName::Revoke)
        } else {
            None
        }
    }

    // Whether a rule of this kind has the field beside those of every rule.
    fn has_field(self, field: &str) -> bool
        ensures { result ≡ is_kind_field self field.now }
    {
        match self {
            KindName::Hide => field == "key",
            KindName::Substitute => field == "key" || field == "value",
            KindName::ReadOnly | KindName::Revoke => false,
        }
    }
}

// Whether a rule of that kind may have the field.
fn is_field(sided: bool, kind: KindName, field: &str) -> bool
    ensures { result ≡ field_of sided kind field.now }
{
    field == "label"
        || field == "kind"
        || kind.has_field(field)
        || sided && (field == "owner" || field == "viewer")
}

// Whether the row has no other fields than a rule of that kind may have.
pub(crate) fn has_its_fields(sided: bool, kind: KindName, row: &Table) -> bool
    ensures { IsTrue result ↔ All (λ k. field_of sided kind (string_bytes k) ≡ true) (keys row.now) }
{
    row.keys()
        .all(|field| is_field(sided, kind, field.as_str()))
}

// Whether the top level has no other fields than it may have.
pub(crate) fn has_top_fields(file: &Table) -> bool
    ensures { IsTrue result ↔ All (λ k. top_field (string_bytes k) ≡ true) (keys file.now) }
{
    file.keys().all(|field| field.as_str() == "version" || field.as_str() == "rule")
}
