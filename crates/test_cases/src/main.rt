//! Cases: what neither a contract nor a line of `test_replay` says. The program writes how each came out.
//!
//! They are of maps: closures that call several keys equal, queries of each kind, constant tables, calls of a collection,
//! iterators that lie, the greatest capacities, stores with a limit, what is printed, sets, and small maps. And they are of the
//! program `names`, over readers and writers in memory, with its names kept in one vector and in two columns: lines with their
//! output, how much it reads, and an error at each read and each write.
//!
//! If there is standard input, it is lines of `names` instead, whose names are kept in two columns (`bin/requests`).
#![tactic(auto)]

// Cases by their names, each with how it came out.
macro_rules! outcomes {
    ($alloc:ident; $($module:ident::$name:ident),+ $(,)?) => {
        [$((stringify!($name), $module::$name($alloc))),+]
    };
}

mod closures;
mod collection;
mod constants;
mod ends;
mod entries;
mod faults;
mod hints;
mod limits;
mod lines;
mod printing;
mod queries;
mod refusals;
mod runs;
mod sets;
mod small;
mod watch;

use names::{FailAt, Watch};
use runs::{FAULTS, Kept, NEVER, run_kept};
use std::alloc::{AllocError, Global};
use std::io;
use std::process::ExitCode;

// Whether all was as it has to be.
type Outcome = Result<bool, AllocError>;

// Whether all of these came out right, or the first error.
fn all_right(outcomes: &[Outcome]) -> Outcome {
    let mut is_right = true;
    for outcome in outcomes {
        is_right &= (*outcome)?;
    }
    Ok(is_right)
}

fn main(rt: HostRuntime) -> ExitCode {
    let mut source = FailAt::new(rt.stdin(), NEVER, FAULTS[0]);
    let (mut reader, mut writer) = (Watch::new(&mut source), Watch::new(rt.stdout()));
    let status = run_kept(rt.alloc(), Kept::InTwoColumns, &mut reader, &mut writer);
    // Where there is no input, one read finds that.
    if (status, source.calls) != (0, 1) {
        return ExitCode::from(status);
    }
    match report(&rt, &cases(rt.alloc())) {
        Ok(()) => ExitCode::SUCCESS,
        Err(_) => ExitCode::FAILURE,
    }
}

fn cases(alloc: Global) -> [(&'static str, Outcome); 57] {
    outcomes! { alloc;
        closures::one_of_the_keys_called_equal_is_found,
        closures::a_closure_compares_with_another_type,
        collection::a_map_is_indexed_and_taken,
        collection::a_map_goes_into_another,
        collection::iterators_are_cloned,
        collection::ranges_are_written_as_in_rust,
        collection::a_store_comes_out,
        collection::a_pair_goes_by_its_index,
        collection::ranges_of_pairs_go,
        collection::values_are_written_up_to_an_error,
        collection::pairs_are_written_and_dropped,
        collection::values_in_columns_are_lent,
        collection::pairs_next_to_a_number_are_found,
        collection::sorted_stores_become_maps,
        constants::numbers_of_each_type_are_found,
        constants::both_ends_of_a_type_are_found,
        constants::strings_and_bytes_are_found,
        constants::texts_and_bytes_are_compared_with_one_another,
        ends::room_past_the_end_is_refused,
        ends::the_longest_store_grows_no_more,
        ends::a_count_takes_no_memory,
        entries::ends_have_entries,
        entries::an_entry_is_inserted,
        entries::a_vector_is_made_once,
        entries::values_are_made_for_absent_keys,
        entries::a_value_may_fail,
        entries::a_key_is_made_if_absent,
        hints::the_size_hint_is_no_matter,
        limits::a_bounded_store_grows_to_its_limit,
        limits::a_limit_goes_with_the_store_that_is_replaced,
        limits::calls_are_answered_one_after_another,
        printing::what_is_printed,
        printing::what_long_walks_print,
        printing::an_error_writes_what_it_is,
        queries::keys_are_asked_by_texts,
        queries::keys_are_asked_by_slices,
        queries::names_are_asked_in_their_bytes,
        refusals::each_call_is_refused_over_some_heap,
        sets::a_set_has_each_key_once,
        sets::strings_are_members,
        sets::keys_are_collected,
        sets::sets_are_combined,
        sets::sets_are_values,
        small::languages_are_found_by_their_codes,
        small::a_range_has_ranges,
        small::keys_are_made_by_a_closure,
        small::keys_and_values_leave_a_map,
        faults::each_read_fails,
        faults::each_write_fails,
        faults::last_lines_fail,
        faults::a_writer_takes_nothing,
        lines::lines_are_answered,
        lines::the_longest_input_is_answered,
        lines::one_byte_too_many_is_read,
        watch::a_call_is_one_call,
        watch::a_call_after_a_failed_one_is_made,
        watch::a_whole_write_ends_at_a_fault,
    }
}

fn report(rt: &impl Print, cases: &[(&str, Outcome)]) -> io::Result<()> {
    for (name, outcome) in cases {
        match outcome {
            Ok(true) => println!(rt; "{name}: right")?,
            Ok(false) => println!(rt; "{name}: WRONG")?,
            Err(_) => println!(rt; "{name}: an error")?,
        }
    }
    Ok(())
}
