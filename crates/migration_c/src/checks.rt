// Checks of a schema, of a mapping and of an instance.
ghost use Rattle.std.specs.Prelude.{◌≡◌};
ghost use Rattle.meaning.specs.Calls.{check_schema, check_mapping, check_instance};
ghost use Rattle.migration.specs.Answers.{encoded, checked};

#[unsafe(no_mangle)]
pub extern "C" fn migration_check_schema(s: &[u8]) -> u64
    ensures { result ≡ encoded (checked (check_schema s.now)) }
{
    migration::exports::migration_check_schema(s)
}

#[unsafe(no_mangle)]
pub extern "C" fn migration_check_mapping(s: &[u8], t: &[u8], f: &[u8]) -> u64
    ensures { result ≡ encoded (checked (check_mapping s.now t.now f.now)) }
{
    migration::exports::migration_check_mapping(s, t, f)
}

#[unsafe(no_mangle)]
pub extern "C" fn migration_check_instance(s: &[u8], i: &[u8]) -> u64
    ensures { result ≡ encoded (checked (check_instance s.now i.now)) }
{
    migration::exports::migration_check_instance(s, i)
}
