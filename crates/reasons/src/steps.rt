// Why a step gives its answer, as a line.
use crate::lines::Lines;
use crate::lookups::{show_found, show_not_found, show_refusal};
use crate::records::Record;
use caller::place::Needed;
use caller::registers::Registers;
use explain::stepped::explain_step;
use explain::sums::{Sum, sum_of};
use explain::why::{RowReason, StepReason};
use numbers::offset::Offset;

// A base and an offset, and their exact sum.
fn show_sum(lines: &mut Lines, name: &[u8], base: u64, offset: Offset) {
    lines.word(name, base);
    lines.offset(b" offset ", offset);
    match sum_of(base, offset) {
        Sum::At(sum) => lines.word(b" sum at ", sum),
        Sum::Below(by) => lines.number(b" sum below ", by),
        Sum::Above(by) => lines.number(b" sum above ", by),
    }
}

fn show_registers(lines: &mut Lines, registers: Registers) {
    lines.word(b"caller ", registers.pc);
    lines.word(b" ", registers.sp);
    lines.word(b" ", registers.fp);
    lines.word(b" ", registers.lr);
    lines.word(b" ", registers.first);
}

// What a row comes to.
fn show_reason(lines: &mut Lines, reason: RowReason) {
    match reason {
        RowReason::Caller { caller, cfa, ra } => {
            show_registers(lines, caller);
            lines.word(b" cfa ", cfa);
            lines.word(b" ra ", ra);
        }
        RowReason::Signed { signed, mask } => {
            lines.number(b"24 signed ", signed as u64);
            lines.word(b" mask ", mask);
        }
        RowReason::CfaOutside { base, offset } => show_sum(lines, b"25 base ", base, offset),
        RowReason::CfaLow {
            callersp,
            sp,
            first,
        } => {
            lines.word(b"26 callersp ", callersp);
            lines.word(b" sp ", sp);
            lines.word(b" first ", first);
        }
        RowReason::RaLost { first } => lines.word(b"27 first ", first),
        RowReason::WordOutside {
            word,
            cfa,
            offset,
            stack,
            length,
        } => {
            match word {
                Needed::Ra => show_sum(lines, b"28 ra cfa ", cfa, offset),
                Needed::Fp => show_sum(lines, b"28 fp cfa ", cfa, offset),
            }
            lines.word(b" stack ", stack);
            lines.number(b" length ", length);
        }
    }
}

pub fn show_step(lines: &mut Lines, record: Record<'_>) {
    let why = explain_step(
        record.section,
        record.stack,
        record.process,
        record.registers,
    );
    lines.text(b"step ");
    match why.reason {
        StepReason::Window { stack, length } => {
            lines.word(b"41 stack ", stack);
            lines.number(b" length ", length);
        }
        StepReason::Unsound(refusal) => show_refusal(lines, refusal),
        StepReason::NothingAsked => lines.text(b"21 nothing asked"),
        StepReason::NotFound { pc, why: missing } => {
            lines.word(b"at ", pc);
            lines.text(b" ");
            show_not_found(lines, missing, why.coverers);
        }
        StepReason::FromRow { found, reason, pc } => {
            lines.word(b"at ", pc);
            lines.text(b" ");
            show_found(lines, found);
            lines.text(b" then ");
            show_reason(lines, reason);
        }
    }
    lines.text(b"\n");
}
