//! The lines of the workload's source of SL.
ghost use Rattle.std.specs.Prelude.{◌≡◌, ◌++◌, ◌+◌, ◌<◌, ◌^◌, OnOk, string_bytes};
ghost use Rattle.pd_gen.specs.Workload.{shift, first_line, chain_line, function_lines, main_line};

use std::alloc::AllocError;

// What function `i` adds to its argument or takes away from it: 0 to 6.
fn shift(number: u32, i: u32) -> u64
    ensures { result ≡ shift number i }
{
    (u64::from(number) + u64::from(i)) % 7
}

// The line of function 0, which adds this.
fn push_first(text: &mut String, by: u64) -> Result<(), AllocError>
    ensures { OnOk result (string_bytes text.new ≡ string_bytes text.old ++ first_line by) }
{
    writeln!(text, "function f0(a) {{ return a + {by}; }}")
}

// The line of function `i + 1`, which calls function `i` with its argument less or more this.
fn push_chain(text: &mut String, i: u32, by: u64) -> Result<(), AllocError>
    requires { i + 1 < 2 ^ 32 }
    ensures { OnOk result (string_bytes text.new ≡ string_bytes text.old ++ chain_line i by) }
{
    let own = i + 1;
    writeln!(
        text,
        "function f{own}(a) {{ if (a > 100) {{ return f{i}(a - {by}); }} return f{i}(a + {by}); }}"
    )
}

/// Writes the lines of functions 0 to `last`.
pub(crate) fn push_functions(text: &mut String, number: u32, last: u32) -> Result<(), AllocError>
    ensures { OnOk result (string_bytes text.new ≡ string_bytes text.old ++ function_lines number last) }
{
    push_first(text, shift(number, 0))?;
    for i in 0..last {
        push_chain(text, i, shift(number, i + 1))?;
    }
    Ok(())
}

/// Writes the line of `main`, which calls function 199 fifty times.
pub(crate) fn push_main(text: &mut String) -> Result<(), AllocError>
    ensures { OnOk result (string_bytes text.new ≡ string_bytes text.old ++ main_line) }
{
    writeln!(
        text,
        "function main() {{ i = 0; while (i < 50) {{ println(pass(f199(i))); i = i + 1; }} }}"
    )
}
