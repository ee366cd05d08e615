// Prints the table of the days before each year of the cycle as the source text of the constant in crate `days`: by adding the lengths of years.
#![tactic(auto)]

ghost use Rattle.std.specs.Prelude.{◌≡◌};
ghost use Rattle.days.specs.Days.{year_length};

use days::the_calendar::is_leap;
use std::io;

fn year_days(year: u16) -> u64
    ensures { result ≡ year_length year }
{
    if is_leap(year) {
        return 366;
    }
    365
}

fn say_entry(rt: &impl Print, days: u64) -> io::Result<()> {
    println!(rt; "    {days},")
}

fn main(rt: HostRuntime) -> io::Result<()> {
    println!(rt; "pub const DAYS_BEFORE: [u32; 400] = [")?;
    let mut days = 0u64;
    for year in 0..400u16 {
        say_entry(&rt, days)?;
        days += year_days(year);
    }
    println!(rt; "];")?;
    Ok(())
}
