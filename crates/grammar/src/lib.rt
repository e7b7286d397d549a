// DSP0212's first grammar group as ABNF, and the theorems that `syntax` and `query_text` read exactly what derives from it; no code of its own.
#![tactic(auto)]
