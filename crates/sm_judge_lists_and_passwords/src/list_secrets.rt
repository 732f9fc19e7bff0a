//! Judging ListSecrets (AWS Secrets Manager API Reference, ListSecrets).
ghost use Rattle.std.specs.Prelude.{◌≡◌, IfOk, None, option_copied};
ghost use Rattle.sm_forms.specs.ListSecrets.{list_forms};
ghost use Rattle.sm_judge_lists_and_passwords.specs.ListSecrets.{is_descending, list_ask, secret_page, list_judgement};
ghost use Rattle.sm_judge_lists_and_passwords.specs.Pages.{IsPageAsk, page_rows, first_listed};
ghost use Rattle.sm_table.specs.Sound.{Sound};
ghost use Rattle.sm_judge_reads.specs.DescribeSecret.{described};

use crate::pages::{Shown, filters_given, listed, page_size, shown_rows};
use sm_base::limits::PAGE_LIMIT;
use sm_judge_common::Judged;
use sm_judge_reads::describe_secret::described;
use sm_listing::{Listed, PageAsk};
use sm_model::{
    Copied, Described, ListSecrets, Moment, NoMemory, Reply, SecretPage, SecretRow, Text,
};
use sm_table::Table;
use std::alloc::Global;

/// Judges a ListSecrets.
#[tactic(auto, using(crate::proofs::PageLemmas::first_are_page_rows))]
pub fn judge_list(
    alloc: Global,
    table: &Table,
    moment: Moment,
    list: &ListSecrets,
) -> Result<Judged, NoMemory>
    requires { list_forms list.now ≡ None }
    ensures judged { IfOk result (λ judged. judged ≡ list_judgement table.now moment list.now) }

    // What is shown are the first of the rows that are listed behind the token.
    ensures rows { Sound table.now
        → page_rows table.now moment (list_ask list.now) ≡ first_listed table.now moment (list_ask list.now) }
{
    let ask = list_ask(alloc, list)?;
    let reply = secret_page(alloc, table, moment, &ask)?;
    Judged::reads(alloc, Reply::ListSecrets(reply))
}

/// The members of a ListSecrets.
#[tactic(auto, using(sm_forms::proofs::ListSecretsLemmas::list_filters, sm_forms::proofs::ListSecretsLemmas::list_max, sm_forms::proofs::ListSecretsLemmas::list_next, crate::proofs::PageLemmas::page_asked))]
fn list_ask(alloc: Global, list: &ListSecrets) -> Result<PageAsk, NoMemory>
    requires { list_forms list.now ≡ None }
    ensures ask { IfOk result (λ ask. ask ≡ list_ask list.now) }
    ensures asks { IfOk result IsPageAsk }
{
    Ok(PageAsk {
        filters: filters_given(alloc, &list.filters)?,
        planned: list.include_planned_deletion,
        descending: is_descending(&list.sort_order),
        max: page_size(PAGE_LIMIT, list.max_results),
        token: list.next_token.copy(alloc)?,
    })
}

/// Whether the reverse of the order of creation is asked for.
#[tactic(auto, unfolding(sm_base::specs::Texts::same_text))]
fn is_descending(order: &Option<Text>) -> bool
    ensures { result ≡ is_descending order.now }
{
    match order {
        Some(order) => order.as_str() == "desc",
        None => false,
    }
}

/// The page's secrets, and the token of the next page.
fn secret_page(
    alloc: Global,
    table: &Table,
    moment: Moment,
    ask: &PageAsk,
) -> Result<SecretPage, NoMemory>
    requires { IsPageAsk ask.now }
    ensures { IfOk result (λ page. page ≡ secret_page table.now moment ask.now) }
{
    let Listed { serials, next } = listed(alloc, table, moment, ask)?;
    let secret_list = shown_rows(alloc, table, ask.descending, serials.as_slice())?;
    Ok(SecretPage {
        next_token: next,
        secret_list,
    })
}

impl Shown for Described {
    ghost use Rattle.sm_judge_reads.specs.DescribeSecret.{described};

    ghost shown = { λ row. described row };

    fn shown(alloc: Global, row: &SecretRow) -> Result<Described, NoMemory>
        ensures { IfOk result (λ made. made ≡ described row.now) }
    {
        described(alloc, row)
    }
}
