// The static library: the comparer and the certificate checker for callers in C. Buffers are a pointer and a length each;
// the answer is returned by value.
#![tactic(auto)]

ghost use Rattle.std.specs.Prelude.{◌≡◌};
ghost use Rattle.outcome.specs.Verdicts.{equality, one_way, checked_values_of};
ghost use Rattle.outcome.specs.Compare.{compare};
ghost use Rattle.outcome.specs.Check.{check};
ghost use Rattle.exports.specs.ReturnedNumbers.{numbers_in, Returns};

use exports::Answer;

// Compares the models of a task file.
#[unsafe(no_mangle)]
pub extern "C" fn nuldopa_compare(file: &[u8], table: &mut [u8], certificate: &mut [u8]) -> Answer
    ensures { Returns (compare equality file.now table.old certificate.old) result table.new certificate.new }
{
    exports::nuldopa_compare(file, table, certificate)
}

// Checks a proposed certificate.
#[unsafe(no_mangle)]
pub extern "C" fn nuldopa_check(file: &[u8], certificate: &[u8]) -> Answer
    ensures { numbers_in result ≡ checked_values_of (check equality file.now certificate.now) }
{
    exports::nuldopa_check(file, certificate)
}

// Compares one way: only the left side attacks.
#[unsafe(no_mangle)]
pub extern "C" fn nuldopa_compare_one_way(
    file: &[u8],
    table: &mut [u8],
    certificate: &mut [u8],
) -> Answer
    ensures { Returns (compare one_way file.now table.old certificate.old) result table.new certificate.new }
{
    exports::nuldopa_compare_one_way(file, table, certificate)
}

// Checks a proposed certificate of that comparison.
#[unsafe(no_mangle)]
pub extern "C" fn nuldopa_check_one_way(file: &[u8], certificate: &[u8]) -> Answer
    ensures { numbers_in result ≡ checked_values_of (check one_way file.now certificate.now) }
{
    exports::nuldopa_check_one_way(file, certificate)
}
