// Processor time.
use std::rt::CpuClock;

// Processor time in microseconds, modulo 2^32; 0 for a clock that fails, and no Option: to its callers it can't fail.
pub fn microseconds(rt: HostRuntime) -> u32 {
    rt.process_cpu_time()
        .map_or(0, |t| (t.as_micros() % 0x100000000) as u32)
}
