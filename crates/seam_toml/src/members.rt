// Members of tables.
ghost use Rattle.std.specs.Prelude.{◌≡◌, option_map};
ghost use Rattle.toml.specs.View.{view, table_view};
ghost use Rattle.toml.specs.Data.{get_member};

use toml::{Table, Value};

// What is under a key.
pub(crate) fn member<'a>(table: &'a Table, key: &str) -> Option<&'a Value>
    ensures { option_map (λ x. view x.now) result ≡ get_member key.now (table_view table.now) }
{
    table.get(key)
}
