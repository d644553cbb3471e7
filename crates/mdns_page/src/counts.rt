//! Counts in words.

ghost use Rattle.std.specs.{Prelude.{◌≡◌, ◌<◌, ◌+◌, ◌∷◌, [], ◌++◌, OnOk}, String.{string_bytes}};
ghost use Rattle.dns_name.specs.Name.{three_digits};
ghost use Rattle.mdns_page.specs.Counts.{commas, count_text};

use mdns_message::Want;

/// Appends a count, and the word for one or the word for more: `1 packet`, `1,234 packets`.
#[tactic(auto, unfolding(crate::specs::Counts::count_text))]
pub(crate) fn push_count(to: &mut String, count: u128, one: &str, many: &str) -> Result<(), Want>
    ensures { OnOk result (string_bytes to.new ≡ string_bytes to.old ++ count_text count one.now many.now) }
{
    push_commas(to, count)?;
    to.push(' ')?;
    to.push_str(if count == 1 { one } else { many })?;
    Ok(())
}

/// Appends a number with commas between thousands: `1,234`.
#[tactic(auto, using(crate::proofs::CountLemmas::for_push_commas))]
pub(crate) fn push_commas(to: &mut String, number: u128) -> Result<(), Want>
    ensures { OnOk result (string_bytes to.new ≡ string_bytes to.old ++ commas number) }
{
    if number < 1000 {
        write!(to, "{number}")?;
        return Ok(());
    }
    push_commas(to, number / 1000)?;
    push_three(to, (number % 1000) as u32)?;
    Ok(())
}

fn push_three(to: &mut String, number: u32) -> Result<(), Want>
    requires { number < 1000 }
    ensures { OnOk result (string_bytes to.new ≡ string_bytes to.old ++ 44 ∷ three_digits number) }
{
    to.push(',')?;
    push_digit(to, number / 100)?;
    push_digit(to, number / 10 % 10)?;
    push_digit(to, number % 10)
}

fn push_digit(to: &mut String, digit: u32) -> Result<(), Want>
    requires { digit < 10 }
    ensures { OnOk result (string_bytes to.new ≡ string_bytes to.old ++ (48 + digit) ∷ []) }
{
    to.push(char::from(b'0' + digit as u8))?;
    Ok(())
}
